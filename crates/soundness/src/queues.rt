// The queues' own rules and the limits of each share.
ghost use Rattle.std.specs.Prelude.{◌≡◌, true, ◌*◌, ◌≤◌, ◌<◌, length};
ghost use Rattle.ranks.specs.Lists.{all_true, all_zero, every};
ghost use Rattle.octets.specs.LittleEndian.{byte_values};
ghost use Rattle.records.specs.Layout.{slot_count, queues_size};
ghost use Rattle.records.specs.Bytes.{decode_queues, decode_queue_at};
ghost use Rattle.specification.specs.Sound.{live_queue_rules, free_queue_rules, sound_queue, limit_in, limits, sound_limits};
ghost use Rattle.soundness.specs.Parts.{only_queues};

use records::layout::{SHARE_COUNT, SLOT_COUNT};
use records::queue::{
    QueueRecord, attributes_allowed, limit_allowed, max_size_allowed, read_queue,
};
use records::shares::{share_limit, share_of_slot};

fn reserved_zero(reserved: [u8; 4]) -> bool
    ensures { result ≡ all_zero reserved }
{
    reserved == [0; 4]
}

fn live_queue_sound(q: QueueRecord) -> bool
    ensures { result ≡ all_true (live_queue_rules q) }
{
    attributes_allowed(u32::from(q.attributes))
        & limit_allowed(u32::from(q.limit))
        & max_size_allowed(u32::from(q.max_size))
        & (1 <= q.generation)
        & (1 <= q.name)
        & reserved_zero(q.reserved)
        & (q.pending <= q.limit)
        & ((q.pending == 0) | (q.waiters == 0))
}

// "A free queue record is zero but for its generation."
fn free_queue_sound(q: QueueRecord) -> bool
    ensures { result ≡ all_true (free_queue_rules q) }
{
    q == q.freed()
}

fn queue_sound(q: QueueRecord) -> bool
    ensures { result ≡ sound_queue q }
{
    if q.is_live() {
        live_queue_sound(q)
    } else {
        free_queue_sound(q)
    }
}

// Each queue record is as its rules say.
pub fn queues_sound(queues: &[u8]) -> bool
    requires { length queues.now ≡ queues_size }
    ensures { result ≡ every (λ slot q. sound_queue q) (decode_queues queues.now) }
{
    (0..SLOT_COUNT).all(|slot| queue_sound(read_queue(queues, slot)))
}

// What the queue in the slot adds to the limits of the share. The limit of a free queue is 0.
fn limit_in(queues: &[u8], slot: usize, share: usize) -> usize
    requires { (slot < slot_count) × ((length queues.now ≡ queues_size) × (sound_queue (decode_queue_at slot queues.now) ≡ true)) }
    ensures { (result ≡ limit_in share slot (decode_queue_at slot queues.now)) × (result < byte_values) }
{
    if share_of_slot(slot) != share {
        return 0;
    }
    usize::from(read_queue(queues, slot).limit)
}

// The sum of the limits of the share's live queues.
pub fn share_limits(queues: &[u8], share: usize) -> usize
    requires { (length queues.now ≡ queues_size) × (every (λ slot q. sound_queue q) (decode_queues queues.now) ≡ true) }
    ensures { (result ≡ limits (only_queues queues.now) share) × (result ≤ slot_count * 255) }
{
    (0..SLOT_COUNT)
        .map(|slot| limit_in(queues, slot, share))
        .sum()
}

// In each share the limits are at most what it has.
pub fn limits_sound(queues: &[u8]) -> bool
    requires { (length queues.now ≡ queues_size) × (every (λ slot q. sound_queue q) (decode_queues queues.now) ≡ true) }
    ensures { result ≡ sound_limits (only_queues queues.now) }
{
    (0..SHARE_COUNT).all(|share| share_limits(queues, share) <= share_limit(share))
}
