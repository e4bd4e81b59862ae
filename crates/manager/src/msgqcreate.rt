// Create.
ghost use Rattle.std.specs.Prelude.{◌≡◌};
ghost use Rattle.records.specs.Bytes.{tables};
ghost use Rattle.specification.specs.Call.{call, create};
ghost use Rattle.specification.specs.Step.{step};
ghost use Rattle.common_refusals.specs.Tested.{Callable};
ghost use Rattle.manager.specs.Outcomes.{outcome_of, accepted};

use crate::answer::{Answer, Completion};
use common_refusals::call_refusal;
use objects::slots::{create_in, free_slot};
use records::queue::{attributes_allowed, limit_allowed, max_size_allowed};
use records::shares::{share_limit, share_of_task};
use records::status::RefusalStatus;
use soundness::queues::share_limits;

// Create, on sound tables and for a caller that may call.
pub fn create(
    queues: &mut [u8],
    pool: &[u8],
    tasks: &[u8],
    caller: usize,
    name: u32,
    limit: u32,
    max_size: u32,
    attributes: u32,
) -> Answer
    requires { Callable (tables queues.old pool.now tasks.now) caller }
    ensures { outcome_of result (tables queues.new pool.now tasks.now)
        ≡ accepted (tables queues.old pool.now tasks.now) caller (create name limit max_size attributes) }
{
    if name == 0 {
        return Err(RefusalStatus::InvalidName);
    }
    if !attributes_allowed(attributes) {
        return Err(RefusalStatus::InvalidOption);
    }
    if !limit_allowed(limit) {
        return Err(RefusalStatus::InvalidNumber);
    }
    if !max_size_allowed(max_size) {
        return Err(RefusalStatus::InvalidSize);
    }
    let share = share_of_task(caller);
    let slot = free_slot(queues, share).ok_or(RefusalStatus::TooMany)?;
    if share_limits(queues, share) + limit as usize > share_limit(share) {
        return Err(RefusalStatus::Unsatisfied);
    }
    let value = create_in(
        queues,
        slot,
        name,
        limit as u8,
        max_size as u8,
        attributes as u8,
    );
    Ok(Completion::Successful { value, woken: 0 })
}

pub fn message_queue_create(
    queues: &mut [u8],
    pool: &[u8],
    tasks: &[u8],
    caller: u32,
    name: u32,
    limit: u32,
    max_size: u32,
    attributes: u32,
) -> Answer
    ensures { outcome_of result (tables queues.new pool.now tasks.now)
        ≡ step (tables queues.old pool.now tasks.now) (call caller (create name limit max_size attributes)) }
{
    call_refusal(queues, pool, tasks, caller)?;
    create(
        queues,
        pool,
        tasks,
        caller as usize,
        name,
        limit,
        max_size,
        attributes,
    )
}
