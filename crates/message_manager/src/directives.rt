// The nine directives and the clock tick for C: each writes its answer record and returns its status. An answer buffer of another
// length than 16 bytes gets 16, and nothing is done.
ghost use Rattle.std.specs.Prelude.{◌≡◌};
ghost use Rattle.records.specs.Bytes.{tables};
ghost use Rattle.specification.specs.Call.{call, tick, create, ident, on_queue, delete, send, urgent, broadcast, receive, get_number_pending, flush};
ghost use Rattle.message_manager.specs.Interface.{called};

use crate::answer::answered;
use calllog::operation::Operation;
use manager::{
    clocktick, msgqbroadcast, msgqcreate, msgqdelete, msgqflush, msgqgetnumberpending, msgqident,
    msgqreceive, msgqsend, msgqurgent,
};

// Creates a queue. Value: its id.
#[unsafe(no_mangle)]
pub extern "C" fn message_queue_create(
    queues: &mut [u8],
    pool: &[u8],
    tasks: &[u8],
    caller: u32,
    name: u32,
    limit: u32,
    max_size: u32,
    attributes: u32,
    answer: &mut [u8],
) -> u32
    ensures { (record { status = result; answer = answer.new; after = tables queues.new pool.now tasks.now })
        ≡ called answer.old (tables queues.old pool.now tasks.now)
        (call caller (create name limit max_size attributes)) }
{
    answered(
        answer,
        Operation::Create as u8,
        &mut || msgqcreate::message_queue_create(
            queues, pool, tasks, caller, name, limit, max_size, attributes,
        ),
    )
}

// Looks a name up in a share. Value: the id.
#[unsafe(no_mangle)]
pub extern "C" fn message_queue_ident(
    queues: &[u8],
    pool: &[u8],
    tasks: &[u8],
    caller: u32,
    name: u32,
    share: u32,
    answer: &mut [u8],
) -> u32
    ensures { (record { status = result; answer = answer.new; after = tables queues.now pool.now tasks.now })
        ≡ called answer.old (tables queues.now pool.now tasks.now)
        (call caller (ident name share)) }
{
    answered(
        answer,
        Operation::Ident as u8,
        &mut || msgqident::message_queue_ident(queues, pool, tasks, caller, name, share),
    )
}

// Deletes a queue. Mask: the tasks that waited in it.
#[unsafe(no_mangle)]
pub extern "C" fn message_queue_delete(
    queues: &mut [u8],
    pool: &mut [u8],
    tasks: &mut [u8],
    caller: u32,
    id: u32,
    answer: &mut [u8],
) -> u32
    ensures { (record { status = result; answer = answer.new; after = tables queues.new pool.new tasks.new })
        ≡ called answer.old (tables queues.old pool.old tasks.old)
        (call caller (on_queue id delete)) }
{
    answered(
        answer,
        Operation::Delete as u8,
        &mut || msgqdelete::message_queue_delete(queues, pool, tasks, caller, id),
    )
}

// Sends a message to the rear of a queue. Mask: the task that it wakes.
#[unsafe(no_mangle)]
pub extern "C" fn message_queue_send(
    queues: &mut [u8],
    pool: &mut [u8],
    tasks: &mut [u8],
    caller: u32,
    id: u32,
    message: &[u8],
    answer: &mut [u8],
) -> u32
    ensures { (record { status = result; answer = answer.new; after = tables queues.new pool.new tasks.new })
        ≡ called answer.old (tables queues.old pool.old tasks.old)
        (call caller (on_queue id (send message.now))) }
{
    answered(
        answer,
        Operation::Send as u8,
        &mut || msgqsend::message_queue_send(queues, pool, tasks, caller, id, message),
    )
}

// Sends a message to the front of a queue. Mask: the task that it wakes.
#[unsafe(no_mangle)]
pub extern "C" fn message_queue_urgent(
    queues: &mut [u8],
    pool: &mut [u8],
    tasks: &mut [u8],
    caller: u32,
    id: u32,
    message: &[u8],
    answer: &mut [u8],
) -> u32
    ensures { (record { status = result; answer = answer.new; after = tables queues.new pool.new tasks.new })
        ≡ called answer.old (tables queues.old pool.old tasks.old)
        (call caller (on_queue id (urgent message.now))) }
{
    answered(
        answer,
        Operation::Urgent as u8,
        &mut || msgqurgent::message_queue_urgent(queues, pool, tasks, caller, id, message),
    )
}

// Sends a message to every task that waits in a queue. Value: how many. Mask: which.
#[unsafe(no_mangle)]
pub extern "C" fn message_queue_broadcast(
    queues: &mut [u8],
    pool: &[u8],
    tasks: &mut [u8],
    caller: u32,
    id: u32,
    message: &[u8],
    answer: &mut [u8],
) -> u32
    ensures { (record { status = result; answer = answer.new; after = tables queues.new pool.now tasks.new })
        ≡ called answer.old (tables queues.old pool.now tasks.old)
        (call caller (on_queue id (broadcast message.now))) }
{
    answered(
        answer,
        Operation::Broadcast as u8,
        &mut || msgqbroadcast::message_queue_broadcast(queues, pool, tasks, caller, id, message),
    )
}

// Receives a message into the record of the caller, or waits for one. Value: its length.
#[unsafe(no_mangle)]
pub extern "C" fn message_queue_receive(
    queues: &mut [u8],
    pool: &mut [u8],
    tasks: &mut [u8],
    caller: u32,
    id: u32,
    option: u32,
    ticks: u32,
    answer: &mut [u8],
) -> u32
    ensures { (record { status = result; answer = answer.new; after = tables queues.new pool.new tasks.new })
        ≡ called answer.old (tables queues.old pool.old tasks.old)
        (call caller (on_queue id (receive option ticks))) }
{
    answered(
        answer,
        Operation::Receive as u8,
        &mut || msgqreceive::message_queue_receive(queues, pool, tasks, caller, id, option, ticks),
    )
}

// Value: how many messages a queue holds.
#[unsafe(no_mangle)]
pub extern "C" fn message_queue_get_number_pending(
    queues: &[u8],
    pool: &[u8],
    tasks: &[u8],
    caller: u32,
    id: u32,
    answer: &mut [u8],
) -> u32
    ensures { (record { status = result; answer = answer.new; after = tables queues.now pool.now tasks.now })
        ≡ called answer.old (tables queues.now pool.now tasks.now)
        (call caller (on_queue id get_number_pending)) }
{
    answered(
        answer,
        Operation::Pending as u8,
        &mut || msgqgetnumberpending::message_queue_get_number_pending(
            queues, pool, tasks, caller, id,
        ),
    )
}

// Removes the messages of a queue. Value: how many.
#[unsafe(no_mangle)]
pub extern "C" fn message_queue_flush(
    queues: &mut [u8],
    pool: &mut [u8],
    tasks: &[u8],
    caller: u32,
    id: u32,
    answer: &mut [u8],
) -> u32
    ensures { (record { status = result; answer = answer.new; after = tables queues.new pool.new tasks.now })
        ≡ called answer.old (tables queues.old pool.old tasks.now)
        (call caller (on_queue id flush)) }
{
    answered(
        answer,
        Operation::Flush as u8,
        &mut || msgqflush::message_queue_flush(queues, pool, tasks, caller, id),
    )
}

// A clock tick. Value: how many waits ended by it. Mask: whose.
#[unsafe(no_mangle)]
pub extern "C" fn message_clock_tick(
    queues: &mut [u8],
    pool: &[u8],
    tasks: &mut [u8],
    answer: &mut [u8],
) -> u32
    ensures { (record { status = result; answer = answer.new; after = tables queues.new pool.now tasks.new })
        ≡ called answer.old (tables queues.old pool.now tasks.old)
        tick }
{
    answered(
        answer,
        Operation::Tick as u8,
        &mut || clocktick::clock_tick(queues, pool, tasks),
    )
}
