// Receive.
ghost use Rattle.std.specs.Prelude.{◌≡◌};
ghost use Rattle.records.specs.Bytes.{tables};
ghost use Rattle.specification.specs.Call.{call, on_queue, receive};
ghost use Rattle.specification.specs.Step.{step};
ghost use Rattle.common_refusals.specs.Tested.{Callable};
ghost use Rattle.manager.specs.Outcomes.{outcome_of, accepted};

use crate::answer::{Answer, Completion};
use common_refusals::call_refusal;
use coremsg::messages::first_message;
use coremsg::steps::{take_first, wait_in};
use objects::lookup::{slot_of, usable};
use records::queue::read_queue;
use records::status::RefusalStatus;

// Receive, on sound tables and for a caller that may call.
pub fn receive(
    queues: &mut [u8],
    pool: &mut [u8],
    tasks: &mut [u8],
    caller: usize,
    id: u32,
    option: u32,
    ticks: u32,
) -> Answer
    requires { Callable (tables queues.old pool.old tasks.old) caller }
    ensures { outcome_of result (tables queues.new pool.new tasks.new)
        ≡ accepted (tables queues.old pool.old tasks.old) caller (on_queue id (receive option ticks)) }
{
    let slot = slot_of(id);
    let queue = read_queue(queues, slot);
    if !usable(queue, caller, id) {
        return Err(RefusalStatus::InvalidId);
    }
    if option > 1 {
        return Err(RefusalStatus::InvalidOption);
    }
    if let Some(buffer) = first_message(pool, slot) {
        let value = take_first(queues, pool, tasks, caller, slot, buffer) as u32;
        return Ok(Completion::Successful { value, woken: 0 });
    }
    if option == 1 {
        return Err(RefusalStatus::Unsatisfied);
    }
    wait_in(queues, tasks, caller, slot, ticks);
    Ok(Completion::Waiting)
}

pub fn message_queue_receive(
    queues: &mut [u8],
    pool: &mut [u8],
    tasks: &mut [u8],
    caller: u32,
    id: u32,
    option: u32,
    ticks: u32,
) -> Answer
    ensures { outcome_of result (tables queues.new pool.new tasks.new)
        ≡ step (tables queues.old pool.old tasks.old) (call caller (on_queue id (receive option ticks))) }
{
    call_refusal(queues, pool, tasks, caller)?;
    receive(queues, pool, tasks, caller as usize, id, option, ticks)
}
