// What send and urgent share: the waiter at rank 0 gets the message, or it is held in a buffer.
ghost use Rattle.std.specs.Prelude.{◌≡◌};
ghost use Rattle.records.specs.Bytes.{tables};
ghost use Rattle.specification.specs.Call.{call, on_queue};
ghost use Rattle.specification.specs.Step.{step};
ghost use Rattle.common_refusals.specs.Tested.{Callable};
ghost use Rattle.manager.specs.Outcomes.{outcome_of, accepted};
ghost use Rattle.manager.specs.Submits.{submit_operation, rank_at};

use crate::answer::{Answer, Completion};
use common_refusals::call_refusal;
use coremsg::messages::lowest_free_buffer;
use coremsg::steps::{hand_over, put_into};
use objects::lookup::{slot_of, usable};
use records::queue::{QueueRecord, read_queue};
use records::shares::share_of_slot;
use records::status::RefusalStatus;
use threadq::masks::task_bit;
use threadq::waiters::first_waiter;

// What is submitted: urgent puts its message at the front of the queue, and send at the rear.
#[derive(Clone, Copy, Debug, PartialEq, Eq)]
pub enum SubmitType {
    Send,
    Urgent,
}

// The rank that the message gets.
fn rank_at(q: QueueRecord, submit_type: SubmitType) -> u8
    ensures { result ≡ rank_at submit_type q }
{
    match submit_type {
        SubmitType::Send => q.pending,
        SubmitType::Urgent => 0,
    }
}

// Urgent or send, on sound tables and for a caller that may call.
pub fn submit(
    queues: &mut [u8],
    pool: &mut [u8],
    tasks: &mut [u8],
    caller: usize,
    id: u32,
    message: &[u8],
    submit_type: SubmitType,
) -> Answer
    requires { Callable (tables queues.old pool.old tasks.old) caller }
    ensures { outcome_of result (tables queues.new pool.new tasks.new)
        ≡ accepted (tables queues.old pool.old tasks.old) caller
        (on_queue id (submit_operation submit_type message.now)) }
{
    let slot = slot_of(id);
    let queue = read_queue(queues, slot);
    if !usable(queue, caller, id) {
        return Err(RefusalStatus::InvalidId);
    }
    if !queue.size_allowed(message.len()) {
        return Err(RefusalStatus::InvalidSize);
    }
    if let Some(waiter) = first_waiter(tasks, slot) {
        hand_over(queues, tasks, waiter, slot, message);
        let woken = task_bit(waiter);
        return Ok(Completion::Successful { value: 0, woken });
    }
    if queue.is_full() {
        return Err(RefusalStatus::TooMany);
    }
    let buffer = lowest_free_buffer(pool, share_of_slot(slot)).ok_or(RefusalStatus::NoBuffer)?;
    put_into(
        queues,
        pool,
        buffer,
        slot,
        rank_at(queue, submit_type),
        message,
    );
    Ok(Completion::Successful { value: 0, woken: 0 })
}

// Urgent or send, on any tables.
pub fn message_queue_submit(
    queues: &mut [u8],
    pool: &mut [u8],
    tasks: &mut [u8],
    caller: u32,
    id: u32,
    message: &[u8],
    submit_type: SubmitType,
) -> Answer
    ensures { outcome_of result (tables queues.new pool.new tasks.new)
        ≡ step (tables queues.old pool.old tasks.old)
        (call caller (on_queue id (submit_operation submit_type message.now))) }
{
    call_refusal(queues, pool, tasks, caller)?;
    submit(
        queues,
        pool,
        tasks,
        caller as usize,
        id,
        message,
        submit_type,
    )
}
