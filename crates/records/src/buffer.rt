// Buffer records.
ghost use Rattle.std.specs.Prelude.{◌≡◌, ◌<◌, ◌≤◌, length};
ghost use Rattle.records.specs.Layout.{capacity, buffer_count, pool_size};
ghost use Rattle.records.specs.Records.{free_buffer};
ghost use Rattle.records.specs.Bytes.{encode_buffer, decode_pool};
ghost use Rattle.records.specs.Changes.{change_at, message_buffer};

use crate::layout::{BUFFER_DATA, BUFFER_LENGTH, BUFFER_POSITION, BUFFER_WIDTH};
use octets::copy::copy_into;
use ranks::Position;

fn encode_message(position: Position, message: &[u8]) -> [u8; BUFFER_WIDTH]
    requires { length message.now ≤ capacity }
    ensures { result ≡ encode_buffer (message_buffer position message.now) }
{
    let mut r = [0u8; BUFFER_WIDTH];
    r[BUFFER_POSITION] = position.queue;
    r[BUFFER_POSITION + 1] = position.rank;
    r[BUFFER_LENGTH] = message.len() as u8;
    copy_into(&mut r, BUFFER_DATA, message);
    r
}

// The message goes into buffer b, which stands at this position.
pub fn write_message(pool: &mut [u8], b: usize, position: Position, message: &[u8])
    requires { (length pool.old ≡ pool_size) × ((b < buffer_count) × (length message.now ≤ capacity)) }
    ensures { decode_pool pool.new ≡ change_at b (λ _. message_buffer position message.now) (decode_pool pool.old) }
{
    copy_into(pool, b * BUFFER_WIDTH, &encode_message(position, message));
}

// Buffer b becomes free.
pub fn clear_buffer(pool: &mut [u8], b: usize)
    requires { (length pool.old ≡ pool_size) × (b < buffer_count) }
    ensures { decode_pool pool.new ≡ change_at b (λ _. free_buffer) (decode_pool pool.old) }
{
    let from = b * BUFFER_WIDTH;
    pool[from..from + BUFFER_WIDTH].fill(0);
}
