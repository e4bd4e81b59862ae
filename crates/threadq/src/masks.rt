// Masks of tasks.
ghost use Rattle.std.specs.Prelude.{◌≡◌, ◌<◌, ◌^◌, ℕ, Bool, false, List, length, get_or};
ghost use Rattle.std.specs.Int.Count.{ones};
ghost use Rattle.ranks.specs.Lists.{mask};
ghost use Rattle.records.specs.Layout.{task_count};

use records::layout::TASK_COUNT;

// The mask of task t alone, 2 to the power of t.
pub fn task_bit(t: usize) -> u32
    requires { t < task_count }
    ensures { result ≡ 2 ^ t }
{
    1 << t
}

// How many ones a mask has: one for each of its tasks.
pub fn ones_in(m: u32) -> u32
    ensures { result ≡ ones m }
{
    m.count_ones()
}

// The mask of the tasks that pass the test.
pub fn mask_of<F: Fn(usize) -> bool>(test: F) -> u32
    requires { (t : ℕ) → t < task_count → F.pre test t }
    ensures { (passes : List Bool) × (length passes ≡ task_count) × ((t : ℕ) → t < task_count → F.post test t (get_or passes t false)) × (result ≡ mask passes) }
{
    let mut mask = 0;
    for t in 0..TASK_COUNT {
        if test(t) {
            mask |= task_bit(t);
        }
    }
    mask
}
