// What becomes of a queue's record together with all of its messages or all of its waiters.
ghost use Rattle.std.specs.Prelude.{◌≡◌, List, ℕ, ◌<◌, ◌≤◌, length};
ghost use Rattle.ranks.specs.Lists.{mask};
ghost use Rattle.records.specs.Layout.{capacity, slot_count, queues_size, pool_size, tasks_size};
ghost use Rattle.records.specs.Bytes.{tables, decode_tasks, decode, decode_queue_at};
ghost use Rattle.specification.specs.Broadcast;
ghost use Rattle.specification.specs.Delete;
ghost use Rattle.specification.specs.Flush;
ghost use Rattle.specification.specs.Lookup.{waiters_of};

use crate::messages::clear_messages;
use objects::slots::{change_queue, free_record};
use records::queue::read_queue;
use records::status::OBJECT_WAS_DELETED;
use threadq::waiters::{deliver_to_all, ready_all, waiters_mask};

// The messages of the queue in the slot are removed. How many they were.
pub fn remove_messages(queues: &mut [u8], pool: &mut [u8], slot: usize) -> u8
    requires { (slot < slot_count) × ((length queues.old ≡ queues_size) × (length pool.old ≡ pool_size)) }
    ensures { (result ≡ (decode_queue_at slot queues.old).pending) × ((tasks : List ℕ) → decode (tables queues.new pool.new tasks)
        ≡ (Flush.effect (decode (tables queues.old pool.old tasks)) slot).after) }
{
    let q = read_queue(queues, slot);
    clear_messages(pool, slot);
    change_queue(queues, slot, |q| q.with_pending(0));
    q.pending
}

// The waiters of the queue in the slot get the message. Their mask.
pub fn hand_to_all(queues: &mut [u8], tasks: &mut [u8], slot: usize, message: &[u8]) -> u32
    requires { (slot < slot_count) × ((length queues.old ≡ queues_size) × ((length tasks.old ≡ tasks_size) × (length message.now ≤ capacity))) }
    ensures { (result ≡ mask (waiters_of slot (decode_tasks tasks.old))) × ((pool : List ℕ) → decode (tables queues.new pool tasks.new)
        ≡ (Broadcast.effect (decode (tables queues.old pool tasks.old)) slot message.now).after) }
{
    let woken = waiters_mask(tasks, slot);
    deliver_to_all(tasks, slot, message);
    change_queue(queues, slot, |q| q.with_waiters(0));
    woken
}

// The queue in the slot goes, with its messages; its waiters become ready. Their mask.
pub fn close(queues: &mut [u8], pool: &mut [u8], tasks: &mut [u8], slot: usize) -> u32
    requires { (slot < slot_count) × ((length queues.old ≡ queues_size) × ((length pool.old ≡ pool_size) × (length tasks.old ≡ tasks_size))) }
    ensures { (result ≡ mask (waiters_of slot (decode_tasks tasks.old))) × (decode (tables queues.new pool.new tasks.new)
        ≡ (Delete.effect (decode (tables queues.old pool.old tasks.old)) slot).after) }
{
    let made_ready = waiters_mask(tasks, slot);
    ready_all(tasks, slot, OBJECT_WAS_DELETED);
    clear_messages(pool, slot);
    free_record(queues, slot);
    made_ready
}
