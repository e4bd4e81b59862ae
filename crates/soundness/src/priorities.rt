// In a queue with PRIORITY, priorities never fall as ranks rise.
ghost use Rattle.std.specs.Prelude.{◌≡◌, true, ◌<◌, length};
ghost use Rattle.ranks.specs.Lists.{every};
ghost use Rattle.ranks.specs.Steps.{ranked};
ghost use Rattle.records.specs.Layout.{slot_count, queues_size, task_count, tasks_size};
ghost use Rattle.records.specs.Bytes.{decode_queues, decode_tasks, decode_queue_at};
ghost use Rattle.specification.specs.Sound.{by_priority};
ghost use Rattle.soundness.specs.declared.ranked.Members.TheVariants.{Waiters};
ghost use Rattle.soundness.specs.Parts.{only_tasks, task_positions, queue_ranked, queue_in_order, OneAtRank, PrioritiesAtRanks};

use octets::numbers::BYTE_VALUES;
use records::layout::{SLOT_COUNT, TASK_COUNT};
use records::queue::read_queue;
use records::task::read_head;

// The priorities of the tasks that wait in the queue, by rank.
fn priorities_by_rank(tasks: &[u8], slot: usize) -> [u8; BYTE_VALUES]
    requires { (length tasks.now ≡ tasks_size) × ((slot < slot_count) × OneAtRank slot (decode_tasks tasks.now)) }
    ensures { PrioritiesAtRanks slot task_count (decode_tasks tasks.now) result }
{
    let mut by_rank = [0u8; BYTE_VALUES];
    for t in 0..TASK_COUNT {
        let h = read_head(tasks, t);
        if usize::from(h.queue) == slot + 1 {
            by_rank[usize::from(h.rank)] = h.priority;
        }
    }
    by_rank
}

// The n tasks that wait in the queue are in order: each is at most as urgent as the one before it.
fn by_priority(tasks: &[u8], slot: usize, n: usize) -> bool
    requires { (length tasks.now ≡ tasks_size) × ((slot < slot_count) × (ranked slot n (task_positions tasks.now) ≡ true)) }
    ensures { result ≡ by_priority (only_tasks tasks.now) slot }
{
    let by_rank = priorities_by_rank(tasks, slot);
    by_rank[..n].is_sorted()
}

// The queue in the slot, if it is live and has PRIORITY, has its waiters in order.
fn queue_in_order(queues: &[u8], tasks: &[u8], slot: usize) -> bool
    requires { (length queues.now ≡ queues_size) × ((length tasks.now ≡ tasks_size) × ((slot < slot_count) × (queue_ranked Waiters (task_positions tasks.now) slot (decode_queue_at slot queues.now) ≡ true))) }
    ensures { result ≡ queue_in_order (only_tasks tasks.now) slot (decode_queue_at slot queues.now) }
{
    let q = read_queue(queues, slot);
    if (q.waiters < 2) | !q.is_live() | !q.has_priority() {
        return true;
    }
    by_priority(tasks, slot, usize::from(q.waiters))
}

// Each live queue with PRIORITY has its waiters in order.
pub fn priorities_sound(queues: &[u8], tasks: &[u8]) -> bool
    requires { (length queues.now ≡ queues_size) × ((length tasks.now ≡ tasks_size) × (every (queue_ranked Waiters (task_positions tasks.now)) (decode_queues queues.now) ≡ true)) }
    ensures { result ≡ every (queue_in_order (only_tasks tasks.now)) (decode_queues queues.now) }
{
    (0..SLOT_COUNT).all(|slot| queue_in_order(queues, tasks, slot))
}
