// The rules of tasks.
ghost use Rattle.std.specs.Prelude.{◌≡◌, true, false, ◌&&◌, ◌+◌, ◌<◌, length};
ghost use Rattle.ranks.specs.Lists.{all_true, every};
ghost use Rattle.ranks.specs.Table.{byte};
ghost use Rattle.records.specs.Layout.{slot_count, queues_size, task_count, task_width, task_position, tasks_size};
ghost use Rattle.records.specs.Bytes.{decode_task, decode_queues, decode_tasks};
ghost use Rattle.specification.specs.Sound.{task_rules, ready_task_rules, sound_task};
ghost use Rattle.soundness.specs.declared.ranked.Members.TheVariants.{Waiters};
ghost use Rattle.soundness.specs.Parts.{only_queues, task_positions, waiting_task_tests, task_tests, queue_ranked};

use crate::ranked::{Members, every_ranked};
use octets::zeros::zeros_at;
use records::layout::{
    CAPACITY, SLOT_COUNT, TASK_LENGTH, TASK_POSITION, TASK_WIDTH, WAITER_POSITIONS,
};
use records::queue::{QueueRecord, read_queue};
use records::shares::{share_of_slot, share_of_task};
use records::status::{OBJECT_WAS_DELETED, SUCCESSFUL, TIMEOUT, WAITING};
use records::task::{READY_STATE, WAITING_STATE};

// A task that does not wait.
fn ready_task_sound(r: &[u8]) -> bool
    requires { length r.now ≡ task_width }
    ensures { result ≡ (all_true (task_rules (decode_task r.now)) && all_true (ready_task_rules (decode_task r.now))) }
{
    (r[0] == READY_STATE)
        & (r[TASK_POSITION] == 0)
        & (r[TASK_POSITION + 1] == 0)
        & zeros_at::<2>(r, 6)
        & zeros_at::<8>(r, 8)
        & (1 <= r[3])
        & ((r[4] == SUCCESSFUL) | (r[4] == TIMEOUT) | (r[4] == OBJECT_WAS_DELETED))
        & (usize::from(r[TASK_LENGTH]) <= CAPACITY)
}

// Task t, which names the queue in the slot, is as its rules say, and its rank is below the queue's count.
fn waiting_task_sound(q: QueueRecord, slot: usize, t: usize, r: &[u8]) -> bool
    requires { (slot < slot_count) × ((t < task_count) × ((length r.now ≡ task_width) × (byte task_position r.now ≡ slot + 1))) }
    ensures { result ≡ waiting_task_tests q slot t (decode_task r.now) }
{
    let own = share_of_slot(slot) == share_of_task(t);
    ((1 <= r[3]) & zeros_at::<2>(r, 6) & zeros_at::<4>(r, 12))
        & (q.is_live() & (own | q.is_open()) & (r[4] == WAITING) & (r[TASK_LENGTH] == 0))
        & (r[TASK_POSITION + 1] < q.waiters)
}

// The record of task t is as its rules say, and its rank is below the count of its queue.
fn task_sound(queues: &[u8], r: &[u8], t: usize) -> bool
    requires { (length queues.now ≡ queues_size) × ((length r.now ≡ task_width) × (t < task_count)) }
    ensures { result ≡ task_tests (only_queues queues.now) t (decode_task r.now) }
{
    if ready_task_sound(r) {
        return true;
    }
    if r[0] != WAITING_STATE {
        return false;
    }
    match usize::from(r[TASK_POSITION]) {
        owner @ 1..=SLOT_COUNT => {
            let slot = owner - 1;
            waiting_task_sound(read_queue(queues, slot), slot, t, r)
        }
        _ => false,
    }
}

// Each task is as its rules say, and has a rank below the count of its queue.
fn each_task_sound(queues: &[u8], tasks: &[u8]) -> bool
    requires { (length queues.now ≡ queues_size) × (length tasks.now ≡ tasks_size) }
    ensures { result ≡ every (task_tests (only_queues queues.now)) (decode_tasks tasks.now) }
{
    tasks
        .chunks_exact(TASK_WIDTH)
        .enumerate()
        .all(|(t, r)| task_sound(queues, r, t))
}

// Each task is as its rules say, and the waiters of each live queue carry the ranks below their count, each exactly once.
pub fn tasks_sound(queues: &[u8], tasks: &[u8]) -> bool
    requires { (length queues.now ≡ queues_size) × (length tasks.now ≡ tasks_size) }
    ensures { result ≡ (every (sound_task (only_queues queues.now)) (decode_tasks tasks.now)
        && every (queue_ranked Waiters (task_positions tasks.now)) (decode_queues queues.now)) }
{
    each_task_sound(queues, tasks)
        && every_ranked(queues, tasks, WAITER_POSITIONS, Members::Waiters)
}
