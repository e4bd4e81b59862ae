// The lent list filled.
ghost use Rattle.std.specs.Prelude.{◌≡◌, ◌≤◌, ◌++◌, length, drop};
ghost use Rattle.records.specs.Layout.{image_size, image_record_count};
ghost use Rattle.differences.specs.Differences.{comparable, compared, differences};
ghost use Rattle.differences.specs.Comparisons.{answer_with, list_outcome};

use crate::answer::Answer;
use crate::difference::Difference;
use crate::record_difference::difference_at;
use records::layout::{IMAGE_RECORD_COUNT, IMAGE_SIZE};
use records::status::{BAD_SHAPE, SUCCESSFUL};

// An answer that wakes nobody.
fn answer_with(status: u8, value: usize) -> Answer
    requires { value ≤ image_record_count }
    ensures { result ≡ answer_with status value }
{
    Answer {
        status: u32::from(status),
        value: value as u32,
        woken: 0,
    }
}

// Whether both images have their size, and the list has room for all that can differ.
#[tactic(auto, unfolding(crate::specs::Differences::comparable))]
fn are_comparable(one: &[u8], two: &[u8], room: usize) -> bool
    ensures { result ≡ comparable one.now two.now room }
{
    one.len() == IMAGE_SIZE && two.len() == IMAGE_SIZE && IMAGE_RECORD_COUNT <= room
}

// Stores an entry for each record that differs, in image order, and says how many. The entries past them stay as they were.
fn store_differences(one: &[u8], two: &[u8], list: &mut [Difference]) -> usize
    requires { (length one.now ≡ image_size) × ((length two.now ≡ image_size) × (image_record_count ≤ length list.now)) }
    ensures count { result ≡ length (differences one.now two.now) }
    ensures stored { list.new ≡ differences one.now two.now ++ drop result list.old }
    ensures bound { result ≤ image_record_count }
{
    let mut n = 0;
    for k in 0..IMAGE_RECORD_COUNT {
        let difference = difference_at(one, two, k);
        if 0 < difference.count {
            list[n] = difference;
            n += 1;
        }
    }
    n
}

// Fills the list with the differences of two images, in image order: status 0 and their number. Entries past it stay as they were. Where an
// image has a wrong length, or the list has room for fewer entries than an image has records: status 16, and the list is untouched.
#[tactic(auto, using(crate::proofs::Entries::shapes, crate::proofs::Entries::refused, crate::proofs::Entries::accepted), unfolding(crate::specs::Differences::list_filled))]
pub fn compare(one: &[u8], two: &[u8], list: &mut [Difference]) -> Answer
    ensures { list_outcome result list.new
        ≡ compared one.now two.now list.old }
{
    if !are_comparable(one, two, list.len()) {
        return answer_with(BAD_SHAPE, 0);
    }
    let count = store_differences(one, two, list);
    answer_with(SUCCESSFUL, count)
}
