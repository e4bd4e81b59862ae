// Urgent.
ghost use Rattle.std.specs.Prelude.{◌≡◌};
ghost use Rattle.records.specs.Bytes.{tables};
ghost use Rattle.specification.specs.Call.{call, on_queue, urgent};
ghost use Rattle.specification.specs.Step.{step};
ghost use Rattle.common_refusals.specs.Tested.{Callable};
ghost use Rattle.manager.specs.Outcomes.{outcome_of, accepted};

use crate::answer::Answer;
use crate::msgqsubmit::{SubmitType, message_queue_submit, submit};

// Urgent, on sound tables and for a caller that may call.
pub fn urgent(
    queues: &mut [u8],
    pool: &mut [u8],
    tasks: &mut [u8],
    caller: usize,
    id: u32,
    message: &[u8],
) -> Answer
    requires { Callable (tables queues.old pool.old tasks.old) caller }
    ensures { outcome_of result (tables queues.new pool.new tasks.new)
        ≡ accepted (tables queues.old pool.old tasks.old) caller (on_queue id (urgent message.now)) }
{
    submit(queues, pool, tasks, caller, id, message, SubmitType::Urgent)
}

pub fn message_queue_urgent(
    queues: &mut [u8],
    pool: &mut [u8],
    tasks: &mut [u8],
    caller: u32,
    id: u32,
    message: &[u8],
) -> Answer
    ensures { outcome_of result (tables queues.new pool.new tasks.new)
        ≡ step (tables queues.old pool.old tasks.old) (call caller (on_queue id (urgent message.now))) }
{
    message_queue_submit(queues, pool, tasks, caller, id, message, SubmitType::Urgent)
}
