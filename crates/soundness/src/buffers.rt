// The rules of buffers.
ghost use Rattle.std.specs.Prelude.{◌≡◌, true, ◌&&◌, ◌<◌, length};
ghost use Rattle.ranks.specs.Lists.{all_true, every};
ghost use Rattle.ranks.specs.Table.{byte};
ghost use Rattle.records.specs.Layout.{slot_count, queues_size, buffer_count, buffer_width, buffer_position, pool_size};
ghost use Rattle.records.specs.Bytes.{decode_buffer, decode_queues, decode_pool};
ghost use Rattle.specification.specs.Sound.{free_buffer_rules, sound_buffer};
ghost use Rattle.soundness.specs.declared.ranked.Members.TheVariants.{Messages};
ghost use Rattle.soundness.specs.Parts.{only_queues, pool_positions, used_buffer_tests, buffer_tests, queue_ranked};

use crate::ranked::{Members, every_ranked};
use octets::zeros::{zeros_at, zeros_from};
use records::layout::{
    BUFFER_DATA, BUFFER_LENGTH, BUFFER_POSITION, BUFFER_WIDTH, MESSAGE_POSITIONS, SLOT_COUNT,
};
use records::queue::{QueueRecord, read_queue};
use records::shares::{owns_buffer, share_of_slot};

// A buffer with no owner. Its bytes are tested with no branch between them.
fn free_buffer_sound(r: &[u8]) -> bool
    requires { (length r.now ≡ buffer_width) × (byte buffer_position r.now ≡ 0) }
    ensures { result ≡ all_true (free_buffer_rules (decode_buffer r.now)) }
{
    r.iter().fold(true, |good, b| good & (*b == 0))
}

// Buffer b, which belongs to the queue in the slot, is as its rules say, and its rank is below the queue's count.
fn used_buffer_sound(q: QueueRecord, slot: usize, b: usize, r: &[u8]) -> bool
    requires { (slot < slot_count) × ((b < buffer_count) × (length r.now ≡ buffer_width)) }
    ensures { result ≡ used_buffer_tests q slot b (decode_buffer r.now) }
{
    let n = usize::from(r[BUFFER_LENGTH]);
    q.is_live()
        & owns_buffer(share_of_slot(slot), b)
        & q.size_allowed(n)
        & zeros_at::<5>(r, 3)
        & zeros_from(r, BUFFER_DATA + n)
        & (r[BUFFER_POSITION + 1] < q.pending)
}

// The record of buffer b is as its rules say, and its rank is below the count of its queue.
fn buffer_sound(queues: &[u8], r: &[u8], b: usize) -> bool
    requires { (length queues.now ≡ queues_size) × ((length r.now ≡ buffer_width) × (b < buffer_count)) }
    ensures { result ≡ buffer_tests (only_queues queues.now) b (decode_buffer r.now) }
{
    match usize::from(r[BUFFER_POSITION]) {
        0 => free_buffer_sound(r),
        owner @ 1..=SLOT_COUNT => {
            let slot = owner - 1;
            used_buffer_sound(read_queue(queues, slot), slot, b, r)
        }
        _ => false,
    }
}

// Each buffer is as its rules say, and has a rank below the count of its queue.
fn each_buffer_sound(queues: &[u8], pool: &[u8]) -> bool
    requires { (length queues.now ≡ queues_size) × (length pool.now ≡ pool_size) }
    ensures { result ≡ every (buffer_tests (only_queues queues.now)) (decode_pool pool.now) }
{
    pool.chunks_exact(BUFFER_WIDTH)
        .enumerate()
        .all(|(b, r)| buffer_sound(queues, r, b))
}

// Each buffer is as its rules say, and the messages of each live queue carry the ranks below their count, each exactly once.
pub fn pool_sound(queues: &[u8], pool: &[u8]) -> bool
    requires { (length queues.now ≡ queues_size) × (length pool.now ≡ pool_size) }
    ensures { result ≡ (every (sound_buffer (only_queues queues.now)) (decode_pool pool.now)
        && every (queue_ranked Messages (pool_positions pool.now)) (decode_queues queues.now)) }
{
    each_buffer_sound(queues, pool)
        && every_ranked(queues, pool, MESSAGE_POSITIONS, Members::Messages)
}
