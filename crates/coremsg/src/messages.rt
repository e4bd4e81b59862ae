// Messages: the buffers of a queue.
ghost use Rattle.std.specs.Prelude.{◌≡◌, ◌<◌, length};
ghost use Rattle.ranks.specs.Lists.{find_index, found_below};
ghost use Rattle.ranks.specs.Position.{in_queue};
ghost use Rattle.ranks.specs.Steps.{record_at};
ghost use Rattle.records.specs.Layout.{slot_count, buffer_count, pool_size};
ghost use Rattle.records.specs.Split.{share_count};
ghost use Rattle.records.specs.Bytes.{decode_pool, decode_buffer_at};
ghost use Rattle.specification.specs.Lookup.{without_messages};
ghost use Rattle.specification.specs.Submit.{is_free_of};

use ranks::first;
use records::buffer::clear_buffer;
use records::layout::{BUFFER_COUNT, BUFFER_POSITION, BUFFER_WIDTH, MESSAGE_POSITIONS};
use records::shares::{first_buffer, owns_buffer};

// Buffer b belongs to the queue in the slot.
#[tactic(auto, using(crate::proofs::Fields::queue_read))]
fn belongs_to(pool: &[u8], b: usize, slot: usize) -> bool
    requires { (b < buffer_count) × ((slot < slot_count) × (length pool.now ≡ pool_size)) }
    ensures { result ≡ in_queue slot (decode_buffer_at b pool.now).position }
{
    usize::from(pool[b * BUFFER_WIDTH + BUFFER_POSITION]) == slot + 1
}

// The buffers of the queue in the slot are zeroed.
pub fn clear_messages(pool: &mut [u8], slot: usize)
    requires { (slot < slot_count) × (length pool.old ≡ pool_size) }
    ensures { decode_pool pool.new ≡ without_messages slot (decode_pool pool.old) }
{
    for b in 0..BUFFER_COUNT {
        if belongs_to(pool, b, slot) {
            clear_buffer(pool, b);
        }
    }
}

// Buffer b is free and of the share.
#[tactic(auto, using(crate::proofs::Fields::queue_read, objects::proofs::Searches::swapped))]
fn is_free(pool: &[u8], share: usize, b: usize) -> bool
    requires { (length pool.now ≡ pool_size) × ((share < share_count) × (b < buffer_count)) }
    ensures { result ≡ is_free_of share b (decode_buffer_at b pool.now) }
{
    (pool[b * BUFFER_WIDTH + BUFFER_POSITION] == 0) & owns_buffer(share, b)
}

// The lowest such buffer, if there is one. No buffer before the first of the share is one.
pub fn lowest_free_buffer(pool: &[u8], share: usize) -> Option<usize>
    requires { (length pool.now ≡ pool_size) × (share < share_count) }
    ensures { result ≡ found_below buffer_count (find_index (is_free_of share) (decode_pool pool.now)) }
{
    (first_buffer(share)..BUFFER_COUNT).find(|&b| is_free(pool, share, b))
}

// The buffer of the message at rank 0 of the queue in the slot, if there is one.
pub fn first_message(pool: &[u8], slot: usize) -> Option<usize>
    requires { (slot < slot_count) × (length pool.now ≡ pool_size) }
    ensures { result ≡ found_below buffer_count (record_at (λ m. m.position) slot 0 (decode_pool pool.now)) }
{
    first(pool, MESSAGE_POSITIONS, slot as u8)
}
