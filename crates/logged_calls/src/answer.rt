// The answer to what a reader found in a log.
ghost use Rattle.std.specs.Prelude.{◌≡◌};
ghost use Rattle.records.specs.Bytes.{tables};
ghost use Rattle.specification.specs.Step.{step};
ghost use Rattle.common_refusals.specs.Tested.{Tested};
ghost use Rattle.manager.specs.Outcomes.{answer_of, outcome_of};
ghost use Rattle.logged_calls.specs.LoggedCall.{call_of, outcome_for, answer_record};

use crate::perform::perform;
use calllog::answers::answer_bytes;
use calllog::call::{Call, LogResult};
use calllog::layout::ANSWER_WIDTH;
use common_refusals::{caller_refusal, table_refusal};
use manager::answer::{Answer, Completion};
use manager::clocktick::tick_after;
use records::status::{RefusalStatus, SUCCESSFUL, WAITING};

// A call or a tick, on tables whose own tests gave this verdict.
#[tactic(auto, using(manager::proofs::Calls::tested_calls), unfolding(crate::specs::LoggedCall::call_of))]
fn answer_call(
    queues: &mut [u8],
    pool: &mut [u8],
    tasks: &mut [u8],
    logged: Call,
    field: &[u8],
    verdict: Result<(), RefusalStatus>,
) -> Answer
    requires { Tested (tables queues.old pool.old tasks.old) verdict }
    ensures { outcome_of result (tables queues.new pool.new tasks.new)
        ≡ step (tables queues.old pool.old tasks.old) (call_of logged field.now) }
{
    match logged {
        Call::By { caller, directive } => {
            caller_refusal(queues, pool, tasks, u32::from(caller), verdict)?;
            perform(queues, pool, tasks, usize::from(caller), directive, field)
        }
        Call::Tick => tick_after(queues, pool, tasks, verdict),
    }
}

// What a reader found, on tables whose own tests gave this verdict: a well-formed call is done, and anything else is 16.
#[tactic(auto, unfolding(manager::specs::Outcomes::answer_of, crate::specs::LoggedCall::outcome_for))]
pub fn answer(
    queues: &mut [u8],
    pool: &mut [u8],
    tasks: &mut [u8],
    found: LogResult,
    field: &[u8],
    verdict: Result<(), RefusalStatus>,
) -> Answer
    requires { Tested (tables queues.old pool.old tasks.old) verdict }
    ensures { outcome_of result (tables queues.new pool.new tasks.new)
        ≡ outcome_for (tables queues.old pool.old tasks.old) found field.now }
{
    match found {
        LogResult::WellFormed(logged) => answer_call(queues, pool, tasks, logged, field, verdict),
        LogResult::Malformed | LogResult::End => Err(RefusalStatus::BadShape),
    }
}

// What a reader found, on any tables. Only a call has them searched.
#[tactic(auto, unfolding(manager::specs::Outcomes::answer_of, crate::specs::LoggedCall::outcome_for))]
pub fn answer_searching(
    queues: &mut [u8],
    pool: &mut [u8],
    tasks: &mut [u8],
    found: LogResult,
    field: &[u8],
) -> Answer
    ensures { outcome_of result (tables queues.new pool.new tasks.new)
        ≡ outcome_for (tables queues.old pool.old tasks.old) found field.now }
{
    let LogResult::WellFormed(logged) = found else {
        return Err(RefusalStatus::BadShape);
    };
    let verdict = table_refusal(queues, pool, tasks);
    answer_call(queues, pool, tasks, logged, field, verdict)
}

// The answer record of a call with this first byte.
#[tactic(auto, unfolding(manager::specs::Outcomes::answer_of))]
pub fn answer_record(a: Answer, first_byte: u8) -> [u8; ANSWER_WIDTH]
    ensures { result ≡ answer_record (answer_of a) first_byte }
{
    match a {
        Ok(Completion::Successful { value, woken }) => {
            answer_bytes(SUCCESSFUL, first_byte, value, woken)
        }
        Ok(Completion::Waiting) => answer_bytes(WAITING, first_byte, 0, 0),
        Err(status) => answer_bytes(u8::from(status), first_byte, 0, 0),
    }
}
