// A call record, and a whole log, for C.
ghost use Rattle.std.specs.Prelude.{◌≡◌};
ghost use Rattle.ranks.specs.Table.{byte};
ghost use Rattle.records.specs.Bytes.{tables};
ghost use Rattle.message_manager.specs.Interface.{called_record, replayed_log};

use crate::answer::{answered, done_status};
use calllog::decode::{message_field, read_record};
use logged_calls::answer::answer_searching;
use runs::replay::replay;

// The first byte of a record, or 0.
fn first_byte(bytes: &[u8]) -> u8
    ensures { result ≡ byte 0 bytes.now }
{
    bytes.first().copied().unwrap_or(0)
}

// A call record: a well-formed call is done, and anything else is 16. Writes its answer record and returns its status.
#[unsafe(no_mangle)]
pub extern "C" fn message_manager_call(
    queues: &mut [u8],
    pool: &mut [u8],
    tasks: &mut [u8],
    bytes: &[u8],
    answer: &mut [u8],
) -> u32
    ensures { (record { status = result; answer = answer.new; after = tables queues.new pool.new tasks.new })
        ≡ called_record answer.old (tables queues.old pool.old tasks.old) bytes.now }
{
    answered(
        answer,
        first_byte(bytes),
        &mut || {
            answer_searching(
                queues,
                pool,
                tasks,
                read_record(bytes),
                message_field(bytes),
            )
        },
    )
}

// Replays a log. The answer records go to the front of the lent bytes; where these have no room for them, returns 16 and does nothing.
#[unsafe(no_mangle)]
pub extern "C" fn message_manager_replay(
    queues: &mut [u8],
    pool: &mut [u8],
    tasks: &mut [u8],
    log: &[u8],
    answers: &mut [u8],
) -> u32
    ensures { (record { status = result; answer = answers.new; after = tables queues.new pool.new tasks.new })
        ≡ replayed_log answers.old (tables queues.old pool.old tasks.old) log.now }
{
    done_status(replay(queues, pool, tasks, log, answers))
}
