// The tests that every call makes first: 16, 10 and 11.
#![tactic(auto, using(crate::proofs::FirstTests::first_tests), unfolding(specification::specs::Answer::first_status, records::specs::Bytes::right_lengths))]

ghost use Rattle.std.specs.Prelude.{◌≡◌, length};
ghost use Rattle.records.specs.Layout.{tasks_size};
ghost use Rattle.records.specs.Bytes.{decode, right_lengths, tables};
ghost use Rattle.specification.specs.Step.{bad_caller};
ghost use Rattle.common_refusals.specs.Tested.{Tested, CallTested};

use records::layout::{POOL_SIZE, QUEUES_SIZE, TASK_COUNT, TASKS_SIZE};
use records::status::RefusalStatus;
use records::task::read_head;
use soundness::search::is_sound;

pub fn right_lengths(queues: &[u8], pool: &[u8], tasks: &[u8]) -> bool
    ensures { result ≡ right_lengths (tables queues.now pool.now tasks.now) }
{
    queues.len() == QUEUES_SIZE && pool.len() == POOL_SIZE && tasks.len() == TASKS_SIZE
}

// "caller above 31, or waiting"
fn bad_caller(queues: &[u8], pool: &[u8], tasks: &[u8], caller: u32) -> bool
    requires { length tasks.now ≡ tasks_size }
    ensures { result ≡ bad_caller (decode (tables queues.now pool.now tasks.now)) caller }
{
    caller >= TASK_COUNT as u32 || read_head(tasks, caller as usize).is_waiting()
}

// The first test of the tables that they fail, 16 or 10, if any.
pub fn table_refusal(queues: &[u8], pool: &[u8], tasks: &[u8]) -> Result<(), RefusalStatus>
    ensures { Tested (tables queues.now pool.now tasks.now) result }
{
    if !right_lengths(queues, pool, tasks) {
        return Err(RefusalStatus::BadShape);
    }
    if !is_sound(queues, pool, tasks) {
        return Err(RefusalStatus::Corrupt);
    }
    Ok(())
}

// The first of the tests 16, 10 and 11 that refuses the call, if any, on tables whose own tests gave this verdict.
pub fn caller_refusal(
    queues: &[u8],
    pool: &[u8],
    tasks: &[u8],
    caller: u32,
    verdict: Result<(), RefusalStatus>,
) -> Result<(), RefusalStatus>
    requires { Tested (tables queues.now pool.now tasks.now) verdict }
    ensures { CallTested (tables queues.now pool.now tasks.now) caller result }
{
    verdict?;
    if bad_caller(queues, pool, tasks, caller) {
        return Err(RefusalStatus::BadCaller);
    }
    Ok(())
}

// "Order: 16, 10, 11, then as each directive lists."
pub fn call_refusal(
    queues: &[u8],
    pool: &[u8],
    tasks: &[u8],
    caller: u32,
) -> Result<(), RefusalStatus>
    ensures { CallTested (tables queues.now pool.now tasks.now) caller result }
{
    let verdict = table_refusal(queues, pool, tasks);
    caller_refusal(queues, pool, tasks, caller, verdict)
}
