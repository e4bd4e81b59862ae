// Get number pending.
ghost use Rattle.std.specs.Prelude.{◌≡◌};
ghost use Rattle.records.specs.Bytes.{tables};
ghost use Rattle.specification.specs.Call.{call, on_queue, get_number_pending};
ghost use Rattle.specification.specs.Step.{step};
ghost use Rattle.common_refusals.specs.Tested.{Callable};
ghost use Rattle.manager.specs.Outcomes.{outcome_of, accepted};

use crate::answer::{Answer, Completion};
use common_refusals::call_refusal;
use objects::lookup::{slot_of, usable};
use records::queue::read_queue;
use records::status::RefusalStatus;

// Get number pending, on sound tables and for a caller that may call.
pub fn get_number_pending(
    queues: &[u8],
    pool: &[u8],
    tasks: &[u8],
    caller: usize,
    id: u32,
) -> Answer
    requires { Callable (tables queues.now pool.now tasks.now) caller }
    ensures { outcome_of result (tables queues.now pool.now tasks.now)
        ≡ accepted (tables queues.now pool.now tasks.now) caller (on_queue id get_number_pending) }
{
    let queue = read_queue(queues, slot_of(id));
    if !usable(queue, caller, id) {
        return Err(RefusalStatus::InvalidId);
    }
    let value = u32::from(queue.pending);
    Ok(Completion::Successful { value, woken: 0 })
}

pub fn message_queue_get_number_pending(
    queues: &[u8],
    pool: &[u8],
    tasks: &[u8],
    caller: u32,
    id: u32,
) -> Answer
    ensures { outcome_of result (tables queues.now pool.now tasks.now)
        ≡ step (tables queues.now pool.now tasks.now) (call caller (on_queue id get_number_pending)) }
{
    call_refusal(queues, pool, tasks, caller)?;
    get_number_pending(queues, pool, tasks, caller as usize, id)
}
