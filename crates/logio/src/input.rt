// A log of any length on standard input, replayed in constant memory.
ghost use Rattle.std.specs.Prelude.{◌≡◌, is_some, nat_lt};
ghost use Rattle.records.specs.Bytes.{tables};
ghost use Rattle.logio.specs.Turns.{block_bytes, Turn, ReplayedInTurns, Tells};

use crate::block::{ANSWERS, BLOCK, replay_block};
use std::io;
use std::io::Stdout;
use streams::reading::standard_input;
use streams::writing::{say_failed, write_answers};

// Why a log was not replayed to its end.
#[derive(Clone, Copy, Debug)]
pub enum ReplayError {
    NotRead(io::Error), // a read failed
    NotWritten(io::Error), // answers could not be written
    TooLong, // it may have more than 2^64 - 1 blocks, which no input has
}

// Reads a block, replays it and writes its answers, where they are asked for. How many bytes of the log were read.
fn turn(
    rt: &HostRuntime,
    queues: &mut [u8],
    pool: &mut [u8],
    tasks: &mut [u8],
    to: Option<Stdout>,
) -> Result<usize, ReplayError>
    ensures { Turn (is_some to) (tables queues.old pool.old tasks.old) result
        (tables queues.new pool.new tasks.new) }
{
    let mut log = [0u8; BLOCK];
    let mut answers = [0u8; ANSWERS];
    let from = standard_input(rt);
    let block = replay_block(&from, queues, pool, tasks, &mut log, &mut answers).map_err(
        ReplayError::NotRead,
    )?;
    write_answers(to, &answers[..block.end]).map_err(ReplayError::NotWritten)?;
    Ok(block.n)
}

// A block of which n bytes were read is the last, where it is shorter than the others.
fn is_last(n: usize) -> bool
    ensures { result ≡ nat_lt n block_bytes }
{
    n < BLOCK
}

// Replays the log, and writes its answers where they are asked for.
// A proved loop has to end, and nothing says that a log does. So the turns have a number, which no run uses up.
pub fn replay_input(
    rt: &HostRuntime,
    queues: &mut [u8],
    pool: &mut [u8],
    tasks: &mut [u8],
    to: Option<Stdout>,
) -> Result<(), ReplayError>
    ensures { ReplayedInTurns (is_some to) (tables queues.old pool.old tasks.old) result
        (tables queues.new pool.new tasks.new) }
{
    for _ in 0..u64::MAX {
        let n = turn(rt, queues, pool, tasks, to)?;
        if is_last(n) {
            return Ok(());
        }
    }
    Err(ReplayError::TooLong)
}

// Says on standard error why a log was not replayed to its end.
pub fn tell(rt: &HostRuntime, ending: Result<(), ReplayError>)
    ensures { Tells ending }
{
    match ending {
        Ok(()) => {}
        Err(ReplayError::NotRead(error)) => say_failed(rt, b"standard input", error),
        Err(ReplayError::NotWritten(error)) => say_failed(rt, b"standard output", error),
        Err(ReplayError::TooLong) => {
            say_failed(rt, b"length of the log", io::Error::from_raw_os_error(0))
        }
    }
}
