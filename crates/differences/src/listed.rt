// The list by value, for a caller that has none to lend.
ghost use Rattle.std.specs.Prelude.{◌≡◌};
ghost use Rattle.differences.specs.Differences.{blanks, compared};
ghost use Rattle.differences.specs.Comparisons.{list_outcome};

use crate::answer::Answer;
use crate::compare::compare;
use crate::difference::Difference;
use records::layout::IMAGE_RECORD_COUNT;

// What a comparison answers, and the list that it leaves.
#[derive(Drop)]
pub struct Listed {
    pub answer: Answer,
    pub list: [Difference; IMAGE_RECORD_COUNT],
}

// Compares two images into a list of blank entries, with room for all that can differ.
pub fn list_differences(one: &[u8], two: &[u8]) -> Listed
    ensures { list_outcome result.answer result.list ≡ compared one.now two.now blanks }
{
    let mut list = [Difference::default(); IMAGE_RECORD_COUNT];
    let answer = compare(one, two, &mut list);
    Listed { answer, list }
}
