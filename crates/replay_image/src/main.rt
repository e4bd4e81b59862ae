// Replays a call log from standard input, from fresh tables, and writes the tables after it to standard output: queues, pool, tasks.
#![tactic(auto)]

use fresh_tables::start::fresh;
use logio::input::{ReplayError, replay_input, tell};
use std::io;
use streams::writing::{standard_output, write};

fn write_image(rt: &HostRuntime, queues: &[u8], pool: &[u8], tasks: &[u8]) -> io::Result<()> {
    let to = standard_output(rt);
    write(to, queues)?;
    write(to, pool)?;
    write(to, tasks)
}

// Replays the log, and writes the image if it was replayed to its end.
fn replay(rt: &HostRuntime) -> Result<(), ReplayError> {
    let mut t = fresh();
    replay_input(rt, &mut t.queues, &mut t.pool, &mut t.tasks, None)?;
    write_image(rt, &t.queues, &t.pool, &t.tasks).map_err(ReplayError::NotWritten)
}

fn main(rt: HostRuntime) {
    let ending = replay(&rt);
    tell(&rt, ending);
}
