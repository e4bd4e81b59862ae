// A block of a log: as many whole records as fit a buffer, read and replayed.
ghost use Rattle.std.specs.Prelude.{◌*◌, ◌≤◌, length};
ghost use Rattle.records.specs.Bytes.{tables};
ghost use Rattle.calllog.specs.CallLog.{answer_width, record_count};
ghost use Rattle.streams.specs.Filling.{input_of};
ghost use Rattle.logio.specs.Turns.{ReplaysBlock};

use calllog::layout::{ANSWER_WIDTH, RECORD_WIDTH};
use runs::replay::replay_all;
use std::io;
use std::io::Read;
use std::os::fd::AsRawFd;
use streams::reading::fill;

// How many records a block has.
const BLOCK_RECORDS: usize = 481;

// Their bytes.
pub const BLOCK: usize = BLOCK_RECORDS * RECORD_WIDTH;

// The bytes of their answers.
pub const ANSWERS: usize = BLOCK_RECORDS * ANSWER_WIDTH;

// A block of a log that was read and replayed.
#[derive(Clone, Copy, Debug, Default, PartialEq, Eq)]
pub struct BlockReplayed {
    pub n: usize, // bytes that were read
    pub end: usize, // bytes of their answer records, at the front of the lent ones
}

// Reads a block of a log and replays it. Where a read failed nothing is replayed.
pub fn replay_block<'a, R: AsRawFd>(
    from: &'a R,
    queues: &mut [u8],
    pool: &mut [u8],
    tasks: &mut [u8],
    log: &mut [u8],
    answers: &mut [u8],
) -> io::Result<BlockReplayed>
where
    &'a R: Read,
    requires { record_count (length log.old) * answer_width ≤ length answers.old }
    ensures { ReplaysBlock (input_of (R.raw_fd from.now)) (tables queues.old pool.old tasks.old) log.old answers.old
        result log.new answers.new (tables queues.new pool.new tasks.new) }
{
    let n = fill(from, log)?;
    let end = replay_all(queues, pool, tasks, &log[..n], answers);
    Ok(BlockReplayed { n, end })
}
