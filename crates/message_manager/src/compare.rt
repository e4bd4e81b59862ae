// What differs between two images, for C. A slice passes as a pointer and a length, that of the list in entries.
ghost use Rattle.std.specs.Prelude.{◌≡◌};
ghost use Rattle.differences.specs.Differences.{compared};
ghost use Rattle.differences.specs.Comparisons.{list_outcome};

use differences::answer::Answer;
use differences::compare::compare;
use differences::difference::Difference;

// Fills the list with the differences of two images. Where an image has a wrong length, or the list has room for fewer entries than an
// image has records, answers 16 and does nothing.
#[unsafe(no_mangle)]
pub extern "C" fn message_manager_compare(one: &[u8], two: &[u8], list: &mut [Difference]) -> Answer
    ensures { list_outcome result list.new
        ≡ compared one.now two.now list.old }
{
    compare(one, two, list)
}
