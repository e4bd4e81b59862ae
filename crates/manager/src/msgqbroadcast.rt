// Broadcast.
ghost use Rattle.std.specs.Prelude.{◌≡◌};
ghost use Rattle.records.specs.Bytes.{tables};
ghost use Rattle.specification.specs.Call.{call, on_queue, broadcast};
ghost use Rattle.specification.specs.Step.{step};
ghost use Rattle.common_refusals.specs.Tested.{Callable};
ghost use Rattle.manager.specs.Outcomes.{outcome_of, accepted};

use crate::answer::{Answer, Completion};
use common_refusals::call_refusal;
use coremsg::clears::hand_to_all;
use objects::lookup::{slot_of, usable};
use records::queue::read_queue;
use records::status::RefusalStatus;
use threadq::masks::ones_in;

// Broadcast, on sound tables and for a caller that may call.
pub fn broadcast(
    queues: &mut [u8],
    pool: &[u8],
    tasks: &mut [u8],
    caller: usize,
    id: u32,
    message: &[u8],
) -> Answer
    requires { Callable (tables queues.old pool.now tasks.old) caller }
    ensures { outcome_of result (tables queues.new pool.now tasks.new)
        ≡ accepted (tables queues.old pool.now tasks.old) caller (on_queue id (broadcast message.now)) }
{
    let slot = slot_of(id);
    let queue = read_queue(queues, slot);
    if !usable(queue, caller, id) {
        return Err(RefusalStatus::InvalidId);
    }
    if !queue.size_allowed(message.len()) {
        return Err(RefusalStatus::InvalidSize);
    }
    let woken = hand_to_all(queues, tasks, slot, message);
    let value = ones_in(woken);
    Ok(Completion::Successful { value, woken })
}

pub fn message_queue_broadcast(
    queues: &mut [u8],
    pool: &[u8],
    tasks: &mut [u8],
    caller: u32,
    id: u32,
    message: &[u8],
) -> Answer
    ensures { outcome_of result (tables queues.new pool.now tasks.new)
        ≡ step (tables queues.old pool.now tasks.old) (call caller (on_queue id (broadcast message.now))) }
{
    call_refusal(queues, pool, tasks, caller)?;
    broadcast(queues, pool, tasks, caller as usize, id, message)
}
