// What becomes of a queue's record and of its messages or waiters together.
ghost use Rattle.std.specs.Prelude.{◌≡◌, ◌-◌, List, ℕ, ◌<◌, ◌≤◌, length};
ghost use Rattle.ranks.specs.Lists.{map_with_index};
ghost use Rattle.ranks.specs.Position.{position_at};
ghost use Rattle.ranks.specs.Steps.{Room, taken_out};
ghost use Rattle.ranks.specs.Table.{records, moved};
ghost use Rattle.records.specs.Layout.{capacity, slot_count, queues_size, buffer_count, buffer_position, buffer_width, pool_size, task_count, task_position, task_width, tasks_size};
ghost use Rattle.records.specs.Records.{free_buffer, message_in, buffer_at};
ghost use Rattle.records.specs.Bytes.{tables, decode_queues, decode_pool, decode_tasks, decode, decode_queue_at, decode_buffer_at};
ghost use Rattle.records.specs.Changes.{change_at, with_waiters, ready_with, with_message, waiting_at, insert_task, take_out_buffer};
ghost use Rattle.specification.specs.Lookup.{leave};
ghost use Rattle.specification.specs.Receive.{received, wait_rank, waiting};
ghost use Rattle.specification.specs.Submit.{delivered, enqueued};
ghost use Rattle.coremsg.specs.StepRecords.{QueueAndTask, QueueAndBuffer};

use objects::slots::change_queue;
use ranks::{Position, insert, take_out};
use records::buffer::{clear_buffer, write_message};
use records::layout::{
    BUFFER_DATA, BUFFER_LENGTH, BUFFER_WIDTH, MESSAGE_POSITIONS, WAITER_POSITIONS,
};
use records::queue::read_queue;
use records::task::{deliver, read_head, write_head};
use threadq::waiters::make_ready;
use threadq::waitrank::wait_rank;

// The position at this rank of the queue in the slot.
fn position_at(slot: usize, rank: u8) -> Position
    requires { slot < slot_count }
    ensures { result ≡ position_at slot rank }
{
    Position {
        queue: (slot + 1) as u8,
        rank,
    }
}

// Task t waits at the rank of the queue in the slot; those at that rank or behind it move back.
fn enter(tasks: &mut [u8], t: usize, slot: usize, rank: u8, ticks: u32)
    requires { (slot < slot_count) × ((t < task_count) × ((length tasks.old ≡ tasks_size) × Room task_position slot (records task_count task_width tasks.old))) }
    ensures { decode_tasks tasks.new ≡ insert_task t slot rank (waiting_at (position_at slot rank) ticks) (decode_tasks tasks.old) }
{
    let at = insert(tasks, WAITER_POSITIONS, t, slot as u8, rank);
    let h = read_head(tasks, t);
    write_head(tasks, t, h.waiting_at(position_at(slot, at), ticks));
}

// The caller waits in the queue of the slot. Its rank.
pub fn wait_in(queues: &mut [u8], tasks: &mut [u8], caller: usize, slot: usize, ticks: u32) -> u8
    requires { QueueAndTask queues.old tasks.old slot caller × (Room task_position slot (records task_count task_width tasks.old) × ((decode_queue_at slot queues.old).waiters < 255)) }
    ensures { (pool : List ℕ) → (result ≡ wait_rank (decode (tables queues.old pool tasks.old)) caller slot)
        × (decode (tables queues.new pool tasks.new)
        ≡ (waiting (decode (tables queues.old pool tasks.old)) caller slot result ticks).after) }
{
    let q = read_queue(queues, slot);
    let rank = wait_rank(tasks, q, caller, slot);
    enter(tasks, caller, slot, rank, ticks);
    change_queue(queues, slot, |q| q.with_waiters(q.waiters + 1));
    rank
}

// Task t leaves its rank of the queue in the slot; those behind move up.
fn take_out_task(tasks: &mut [u8], t: usize, slot: usize, rank: u8)
    requires { (slot < slot_count) × (length tasks.old ≡ tasks_size) }
    ensures { records task_count task_width tasks.new ≡ map_with_index (moved task_position (taken_out t slot rank)) (records task_count task_width tasks.old) }
{
    take_out(tasks, WAITER_POSITIONS, t, slot as u8, rank);
}

// The queue in the slot has one waiter less.
#[tactic(auto, using(objects::proofs::Written::queue_changed))]
fn uncount_waiter(queues: &mut [u8], slot: usize)
    requires { (slot < slot_count) × (length queues.old ≡ queues_size) }
    ensures { decode_queues queues.new ≡ change_at slot (λ q. with_waiters (q.waiters - 1) q) (decode_queues queues.old) }
{
    change_queue(
        queues,
        slot,
        |q| q.with_waiters(q.waiters.saturating_sub(1)),
    );
}

// Task t, the first waiter of the queue in the slot, gets the message and leaves.
#[tactic(auto, using(crate::proofs::Changed::task_left), unfolding(specification::specs::Submit::delivered))]
pub fn hand_over(queues: &mut [u8], tasks: &mut [u8], t: usize, slot: usize, message: &[u8])
    requires { QueueAndTask queues.old tasks.old slot t × (length message.now ≤ capacity) }
    ensures { (pool : List ℕ) → decode (tables queues.new pool tasks.new)
        ≡ (delivered (decode (tables queues.old pool tasks.old)) t slot message.now).after }
{
    take_out_task(tasks, t, slot, 0);
    deliver(tasks, t, message);
    uncount_waiter(queues, slot);
}

// Task t leaves the queue of the slot, where it stands at the rank, and becomes ready with the status.
#[tactic(auto, using(crate::proofs::Changed::task_left))]
pub fn leave(queues: &mut [u8], tasks: &mut [u8], t: usize, slot: usize, rank: u8, status: u8)
    requires { QueueAndTask queues.old tasks.old slot t }
    ensures { (pool : List ℕ) → decode (tables queues.new pool tasks.new)
        ≡ leave (decode (tables queues.old pool tasks.old)) t slot rank (ready_with status) }
{
    take_out_task(tasks, t, slot, rank);
    make_ready(tasks, t, status);
    uncount_waiter(queues, slot);
}

// The message is put into buffer b, at this rank of the queue in the slot.
pub fn put_into(queues: &mut [u8], pool: &mut [u8], b: usize, slot: usize, rank: u8, message: &[u8])
    requires { QueueAndBuffer queues.old pool.old slot b × ((length message.now ≤ capacity)
        × (Room buffer_position slot (records buffer_count buffer_width pool.old) × ((decode_queue_at slot queues.old).pending < 255))) }
    ensures { (tasks : List ℕ) → decode (tables queues.new pool.new tasks)
        ≡ (enqueued (decode (tables queues.old pool.old tasks)) b slot rank message.now).after }
{
    let at = insert(pool, MESSAGE_POSITIONS, b, slot as u8, rank);
    write_message(pool, b, position_at(slot, at), message);
    change_queue(queues, slot, |q| q.with_pending(q.pending + 1));
}

// The length of the message in buffer b.
#[tactic(auto, using(crate::proofs::Fields::length_read))]
fn message_size(pool: &[u8], b: usize) -> usize
    requires { (b < buffer_count) × (length pool.now ≡ pool_size) }
    ensures { result ≡ (decode_buffer_at b pool.now).message_length }
{
    usize::from(pool[b * BUFFER_WIDTH + BUFFER_LENGTH])
}

// Task t gets the message in buffer b. The message's length.
fn copy_message(tasks: &mut [u8], t: usize, pool: &[u8], b: usize) -> usize
    requires { (t < task_count) × ((b < buffer_count) × ((length tasks.old ≡ tasks_size) × ((length pool.now ≡ pool_size) × ((decode_buffer_at b pool.now).message_length ≤ capacity)))) }
    ensures { (result ≡ (decode_buffer_at b pool.now).message_length)
        × (decode_tasks tasks.new ≡ change_at t (with_message (message_in (decode_buffer_at b pool.now))) (decode_tasks tasks.old)) }
{
    let n = message_size(pool, b);
    let from = b * BUFFER_WIDTH + BUFFER_DATA;
    deliver(tasks, t, &pool[from..from + n]);
    n
}

// Buffer b leaves the queue in the slot, where it stands at rank 0, and is zeroed; those behind move up.
fn take_out_message(pool: &mut [u8], slot: usize, b: usize)
    requires { (slot < slot_count) × ((b < buffer_count) × (length pool.old ≡ pool_size)) }
    ensures { decode_pool pool.new ≡ take_out_buffer b slot 0 (λ _. free_buffer) (decode_pool pool.old) }
{
    take_out(pool, MESSAGE_POSITIONS, b, slot as u8, 0);
    clear_buffer(pool, b);
}

// The caller gets the message in buffer b, at rank 0 of the queue in the slot, and the buffer is freed. The message's length.
pub fn take_first(
    queues: &mut [u8],
    pool: &mut [u8],
    tasks: &mut [u8],
    caller: usize,
    slot: usize,
    b: usize,
) -> usize
    requires { QueueAndTask queues.old tasks.old slot caller × (QueueAndBuffer queues.old pool.old slot b × ((decode_buffer_at b pool.old).message_length ≤ capacity)) }
    ensures { (result ≡ (buffer_at (decode (tables queues.old pool.old tasks.old)) b).message_length)
        × (decode (tables queues.new pool.new tasks.new)
        ≡ (received (decode (tables queues.old pool.old tasks.old)) caller slot b).after) }
{
    let n = copy_message(tasks, caller, pool, b);
    take_out_message(pool, slot, b);
    change_queue(
        queues,
        slot,
        |q| q.with_pending(q.pending.saturating_sub(1)),
    );
    n
}
