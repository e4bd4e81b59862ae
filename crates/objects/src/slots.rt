// Slots: the free slot of a share, the slot of a name, a queue made in a slot, and its record changed or freed.
ghost use Rattle.std.specs.Prelude.{◌≡◌, List, ℕ, suc, ◌<◌, length};
ghost use Rattle.ranks.specs.Lists.{find_index, found_below};
ghost use Rattle.records.specs.Layout.{id_of, slot_count, queues_size, task_count};
ghost use Rattle.records.specs.Bytes.{tables, decode_queues, decode, decode_queue_at};
ghost use Rattle.records.specs.Changes.{change_at, freed};
ghost use Rattle.specification.specs.Create.{is_free_slot, effect};
ghost use Rattle.specification.specs.Ident.{is_named};
ghost use Rattle.objects.specs.Slots.{SlotReady};

use crate::lookup::id_of;
use records::layout::{LAST_GENERATION, SLOT_COUNT};
use records::queue::{QueueRecord, read_queue, write_queue};
use records::shares::{share_of_slot, share_of_task};

// The slot is free, of the share, and not spent.
#[tactic(auto, unfolding(ranks::specs::Lists::all_true))]
fn is_free_slot(queues: &[u8], share: usize, slot: usize) -> bool
    requires { (length queues.now ≡ queues_size) × (slot < slot_count) }
    ensures { result ≡ is_free_slot share slot (decode_queue_at slot queues.now) }
{
    let q = read_queue(queues, slot);
    (q.live == 0) & (share_of_slot(slot) == share) & (q.generation < LAST_GENERATION)
}

// The lowest such slot, if there is one.
pub fn free_slot(queues: &[u8], share: usize) -> Option<usize>
    requires { length queues.now ≡ queues_size }
    ensures { result ≡ found_below slot_count (find_index (is_free_slot share) (decode_queues queues.now)) }
{
    (0..SLOT_COUNT).find(|&slot| is_free_slot(queues, share, slot))
}

// The slot is a live queue of the share with the name, and the caller may see it.
#[tactic(auto, unfolding(ranks::specs::Lists::all_true))]
fn is_named(queues: &[u8], caller: usize, name: u32, share: usize, slot: usize) -> bool
    requires { (length queues.now ≡ queues_size) × ((caller < task_count) × (slot < slot_count)) }
    ensures { result ≡ is_named caller name share slot (decode_queue_at slot queues.now) }
{
    let q = read_queue(queues, slot);
    q.is_live()
        & (share_of_slot(slot) == share)
        & (q.name == name)
        & ((share == share_of_task(caller)) | q.is_open())
}

// The lowest such slot, if there is one.
pub fn named(queues: &[u8], caller: usize, name: u32, share: usize) -> Option<usize>
    requires { (length queues.now ≡ queues_size) × (caller < task_count) }
    ensures { result ≡ found_below slot_count (find_index (is_named caller name share) (decode_queues queues.now)) }
{
    (0..SLOT_COUNT).find(|&slot| is_named(queues, caller, name, share, slot))
}

// The queue is made in the slot, whose record gets the next generation. Its id.
pub fn create_in(
    queues: &mut [u8],
    slot: usize,
    name: u32,
    limit: u8,
    max_size: u8,
    attributes: u8,
) -> u32
    requires { SlotReady queues.old slot }
    ensures { (result ≡ id_of (suc (decode_queue_at slot queues.old).generation) slot)
        × ((pool tasks : List ℕ) → decode (tables queues.new pool tasks)
        ≡ (effect (decode (tables queues.old pool tasks)) slot name limit max_size attributes).after) }
{
    let q = read_queue(queues, slot);
    let generation = q.generation + 1;
    write_queue(
        queues,
        slot,
        q.with_generation(generation)
            .live_with(name, limit, max_size, attributes),
    );
    id_of(generation, slot)
}

// The queue in the slot becomes what `change` makes of it.
pub fn change_queue<F: FnOnce(QueueRecord) -> QueueRecord>(
    queues: &mut [u8],
    slot: usize,
    change: F,
)
    requires place { (slot < slot_count) × (length queues.old ≡ queues_size) }
    requires callable { F.pre change (decode_queue_at slot queues.old) }
    ensures { (q : _) × F.post change (decode_queue_at slot queues.old) q × (decode_queues queues.new ≡ change_at slot (λ _. q) (decode_queues queues.old)) }
{
    let q = read_queue(queues, slot);
    write_queue(queues, slot, change(q));
}

// "the record is zeroed but for its generation"
#[tactic(auto, using(crate::proofs::Written::queue_changed))]
pub fn free_record(queues: &mut [u8], slot: usize)
    requires { (slot < slot_count) × (length queues.old ≡ queues_size) }
    ensures { decode_queues queues.new ≡ change_at slot freed (decode_queues queues.old) }
{
    change_queue(queues, slot, |q| q.freed());
}
