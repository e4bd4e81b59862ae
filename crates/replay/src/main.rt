// Replays a call log from standard input, from fresh tables, and writes its answer records to standard output.
#![tactic(auto)]

use fresh_tables::start::fresh;
use logio::input::{replay_input, tell};
use streams::writing::standard_output;

fn main(rt: HostRuntime) {
    let mut t = fresh();
    let to = Some(standard_output(&rt));
    let ending = replay_input(&rt, &mut t.queues, &mut t.pool, &mut t.tasks, to);
    tell(&rt, ending);
}
