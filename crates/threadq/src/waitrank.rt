// The rank at which a task begins to wait.
ghost use Rattle.std.specs.Prelude.{◌≡◌, ◌<◌, length};
ghost use Rattle.records.specs.Layout.{slot_count, task_count, tasks_size};
ghost use Rattle.records.specs.Bytes.{decode_tasks, decode_task_at};
ghost use Rattle.specification.specs.Receive.{rank_behind, priority_rank, rank_for};

use records::layout::TASK_COUNT;
use records::queue::QueueRecord;
use records::task::read_head;

// The rank of task t, where it waits in the queue of the slot with a greater number than the priority; else the rear.
fn rank_behind(tasks: &[u8], t: usize, slot: usize, priority: u8, rear: u8) -> u8
    requires { (t < task_count) × ((slot < slot_count) × (length tasks.now ≡ tasks_size)) }
    ensures { result ≡ rank_behind slot priority rear (decode_task_at t tasks.now) }
{
    let h = read_head(tasks, t);
    if (usize::from(h.queue) == slot + 1) & (priority < h.priority) {
        h.rank
    } else {
        rear
    }
}

// The least such rank of all tasks.
fn priority_rank(tasks: &[u8], slot: usize, priority: u8, rear: u8) -> u8
    requires { (slot < slot_count) × (length tasks.now ≡ tasks_size) }
    ensures { result ≡ priority_rank slot priority rear (decode_tasks tasks.now) }
{
    (0..TASK_COUNT).fold(
        rear,
        |least, t| least.min(rank_behind(tasks, t, slot, priority, rear)),
    )
}

// "at the rear, or with PRIORITY behind all of equal or smaller number"
pub fn wait_rank(tasks: &[u8], q: QueueRecord, caller: usize, slot: usize) -> u8
    requires { (slot < slot_count) × ((caller < task_count) × (length tasks.now ≡ tasks_size)) }
    ensures { result ≡ rank_for q slot (decode_task_at caller tasks.now).priority (decode_tasks tasks.now) }
{
    if !q.has_priority() {
        return q.waiters;
    }
    let h = read_head(tasks, caller);
    priority_rank(tasks, slot, h.priority, q.waiters)
}
