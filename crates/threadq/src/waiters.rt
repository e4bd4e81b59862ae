// Tasks that wait in a queue: found, given a message, made ready.
ghost use Rattle.std.specs.Prelude.{◌≡◌, ℕ, ◌<◌, ◌≤◌, length};
ghost use Rattle.ranks.specs.Lists.{found_below, mask};
ghost use Rattle.ranks.specs.Position.{in_queue};
ghost use Rattle.ranks.specs.Steps.{record_at};
ghost use Rattle.records.specs.Layout.{capacity, slot_count, task_count, tasks_size};
ghost use Rattle.records.specs.Records.{Task};
ghost use Rattle.records.specs.Bytes.{decode_tasks, decode_task_at};
ghost use Rattle.records.specs.Changes.{change_at, ready_with, with_message};
ghost use Rattle.specification.specs.Lookup.{waiters_of, without_waiters};

use crate::masks::mask_of;
use ranks::first;
use records::layout::{TASK_COUNT, TASK_POSITION, TASK_WIDTH, WAITER_POSITIONS};
use records::task::{deliver, read_head, write_head};

// Task t waits in the queue of the slot.
#[tactic(auto, using(crate::proofs::TaskHead::queue_read))]
fn waits_in(tasks: &[u8], t: usize, slot: usize) -> bool
    requires { (t < task_count) × ((slot < slot_count) × (length tasks.now ≡ tasks_size)) }
    ensures { result ≡ in_queue slot (decode_task_at t tasks.now).position }
{
    usize::from(tasks[t * TASK_WIDTH + TASK_POSITION]) == slot + 1
}

// The waiter at rank 0 of the queue in the slot, if there is one.
pub fn first_waiter(tasks: &[u8], slot: usize) -> Option<usize>
    requires { (slot < slot_count) × (length tasks.now ≡ tasks_size) }
    ensures { result ≡ found_below task_count (record_at (λ w. w.position) slot 0 (decode_tasks tasks.now)) }
{
    first(tasks, WAITER_POSITIONS, slot as u8)
}

// The mask of the tasks that wait in the queue of the slot.
pub fn waiters_mask(tasks: &[u8], slot: usize) -> u32
    requires { (slot < slot_count) × (length tasks.now ≡ tasks_size) }
    ensures { result ≡ mask (waiters_of slot (decode_tasks tasks.now)) }
{
    mask_of(|t| waits_in(tasks, t, slot))
}

// Task t becomes ready with the status.
#[tactic(auto, using(crate::proofs::TaskHead::head_changed))]
pub fn make_ready(tasks: &mut [u8], t: usize, status: u8)
    requires { (t < task_count) × (length tasks.old ≡ tasks_size) }
    ensures { decode_tasks tasks.new ≡ change_at t (ready_with status) (decode_tasks tasks.old) }
{
    let h = read_head(tasks, t);
    write_head(tasks, t, h.ready_with(status));
}

// `change` is called for each task that waits in the queue of the slot. Where it does `f` to its task, each of them is changed by `f`.
fn change_waiters<F: Fn(&mut [u8], usize)>(tasks: &mut [u8], slot: usize, change: F)
    requires place { (slot < slot_count) × (length tasks.old ≡ tasks_size) }
    requires callable { (w : _) (t : ℕ) → length w.now ≡ tasks_size → t < task_count → F.pre change w t }
    ensures { (f : Task → Task) → ((w : _) (t : ℕ) (u : _) → F.post change w t tt u → decode_tasks u.now ≡ change_at t f (decode_tasks w.now))
        → decode_tasks tasks.new ≡ without_waiters slot f (decode_tasks tasks.old) }
{
    for t in 0..TASK_COUNT {
        if waits_in(tasks, t, slot) {
            change(tasks, t);
        }
    }
}

// Every task that waits in the queue of the slot gets the message.
pub fn deliver_to_all(tasks: &mut [u8], slot: usize, message: &[u8])
    requires { (slot < slot_count) × ((length tasks.old ≡ tasks_size) × (length message.now ≤ capacity)) }
    ensures { decode_tasks tasks.new ≡ without_waiters slot (with_message message.now) (decode_tasks tasks.old) }
{
    change_waiters(tasks, slot, |tasks, t| deliver(tasks, t, message));
}

// Every task that waits in the queue of the slot becomes ready with the status.
pub fn ready_all(tasks: &mut [u8], slot: usize, status: u8)
    requires { (slot < slot_count) × (length tasks.old ≡ tasks_size) }
    ensures { decode_tasks tasks.new ≡ without_waiters slot (ready_with status) (decode_tasks tasks.old) }
{
    change_waiters(tasks, slot, |tasks, t| make_ready(tasks, t, status));
}
