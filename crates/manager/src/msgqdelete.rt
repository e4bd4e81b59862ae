// Delete.
ghost use Rattle.std.specs.Prelude.{◌≡◌};
ghost use Rattle.records.specs.Bytes.{tables};
ghost use Rattle.specification.specs.Call.{call, on_queue, delete};
ghost use Rattle.specification.specs.Step.{step};
ghost use Rattle.common_refusals.specs.Tested.{Callable};
ghost use Rattle.manager.specs.Outcomes.{outcome_of, accepted};

use crate::answer::{Answer, Completion};
use common_refusals::call_refusal;
use coremsg::clears::close;
use objects::lookup::{owner_refusal, slot_of};
use records::queue::read_queue;

// Delete, on sound tables and for a caller that may call.
pub fn delete(
    queues: &mut [u8],
    pool: &mut [u8],
    tasks: &mut [u8],
    caller: usize,
    id: u32,
) -> Answer
    requires { Callable (tables queues.old pool.old tasks.old) caller }
    ensures { outcome_of result (tables queues.new pool.new tasks.new)
        ≡ accepted (tables queues.old pool.old tasks.old) caller (on_queue id delete) }
{
    let slot = slot_of(id);
    let queue = read_queue(queues, slot);
    owner_refusal(queue, caller, id)?;
    let woken = close(queues, pool, tasks, slot);
    Ok(Completion::Successful { value: 0, woken })
}

pub fn message_queue_delete(
    queues: &mut [u8],
    pool: &mut [u8],
    tasks: &mut [u8],
    caller: u32,
    id: u32,
) -> Answer
    ensures { outcome_of result (tables queues.new pool.new tasks.new)
        ≡ step (tables queues.old pool.old tasks.old) (call caller (on_queue id delete)) }
{
    call_refusal(queues, pool, tasks, caller)?;
    delete(queues, pool, tasks, caller as usize, id)
}
