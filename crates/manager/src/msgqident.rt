// Ident.
ghost use Rattle.std.specs.Prelude.{◌≡◌};
ghost use Rattle.records.specs.Bytes.{tables};
ghost use Rattle.specification.specs.Call.{call, ident};
ghost use Rattle.specification.specs.Step.{step};
ghost use Rattle.common_refusals.specs.Tested.{Callable};
ghost use Rattle.manager.specs.Outcomes.{outcome_of, accepted};

use crate::answer::{Answer, Completion};
use common_refusals::call_refusal;
use objects::lookup::id_of;
use objects::slots::named;
use records::layout::SHARE_COUNT;
use records::queue::read_queue;
use records::status::RefusalStatus;

// Ident, on sound tables and for a caller that may call.
pub fn ident(
    queues: &[u8],
    pool: &[u8],
    tasks: &[u8],
    caller: usize,
    name: u32,
    share: u32,
) -> Answer
    requires { Callable (tables queues.now pool.now tasks.now) caller }
    ensures { outcome_of result (tables queues.now pool.now tasks.now)
        ≡ accepted (tables queues.now pool.now tasks.now) caller (ident name share) }
{
    if name == 0 {
        return Err(RefusalStatus::InvalidName);
    }
    if share >= SHARE_COUNT as u32 {
        return Err(RefusalStatus::InvalidNode);
    }
    let slot = named(queues, caller, name, share as usize).ok_or(RefusalStatus::InvalidName)?;
    let queue = read_queue(queues, slot);
    let value = id_of(queue.generation, slot);
    Ok(Completion::Successful { value, woken: 0 })
}

pub fn message_queue_ident(
    queues: &[u8],
    pool: &[u8],
    tasks: &[u8],
    caller: u32,
    name: u32,
    share: u32,
) -> Answer
    ensures { outcome_of result (tables queues.now pool.now tasks.now)
        ≡ step (tables queues.now pool.now tasks.now) (call caller (ident name share)) }
{
    call_refusal(queues, pool, tasks, caller)?;
    ident(queues, pool, tasks, caller as usize, name, share)
}
