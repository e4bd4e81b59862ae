// Flush.
ghost use Rattle.std.specs.Prelude.{◌≡◌};
ghost use Rattle.records.specs.Bytes.{tables};
ghost use Rattle.specification.specs.Call.{call, on_queue, flush};
ghost use Rattle.specification.specs.Step.{step};
ghost use Rattle.common_refusals.specs.Tested.{Callable};
ghost use Rattle.manager.specs.Outcomes.{outcome_of, accepted};

use crate::answer::{Answer, Completion};
use common_refusals::call_refusal;
use coremsg::clears::remove_messages;
use objects::lookup::{owner_refusal, slot_of};
use records::queue::read_queue;

// Flush, on sound tables and for a caller that may call.
pub fn flush(queues: &mut [u8], pool: &mut [u8], tasks: &[u8], caller: usize, id: u32) -> Answer
    requires { Callable (tables queues.old pool.old tasks.now) caller }
    ensures { outcome_of result (tables queues.new pool.new tasks.now)
        ≡ accepted (tables queues.old pool.old tasks.now) caller (on_queue id flush) }
{
    let slot = slot_of(id);
    let queue = read_queue(queues, slot);
    owner_refusal(queue, caller, id)?;
    let value = u32::from(remove_messages(queues, pool, slot));
    Ok(Completion::Successful { value, woken: 0 })
}

pub fn message_queue_flush(
    queues: &mut [u8],
    pool: &mut [u8],
    tasks: &[u8],
    caller: u32,
    id: u32,
) -> Answer
    ensures { outcome_of result (tables queues.new pool.new tasks.now)
        ≡ step (tables queues.old pool.old tasks.now) (call caller (on_queue id flush)) }
{
    call_refusal(queues, pool, tasks, caller)?;
    flush(queues, pool, tasks, caller as usize, id)
}
