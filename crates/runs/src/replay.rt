// A whole log replayed over the tables.
ghost use Rattle.std.specs.Prelude.{◌≡◌, ◌*◌, ◌≤◌, ◌<◌, length};
ghost use Rattle.records.specs.Bytes.{tables};
ghost use Rattle.common_refusals.specs.Tested.{Tested};
ghost use Rattle.calllog.specs.CallLog.{answer_width, record_count};
ghost use Rattle.runs.specs.Replay.{replay_found, replayed, replayed_front, replayed_into};

use calllog::decode::{message_field, record_count};
use calllog::layout::ANSWER_WIDTH;
use calllog::reader::{LogReader, LogRecord};
use common_refusals::table_refusal;
use logged_calls::answer::{answer, answer_record};
use records::status::RefusalStatus;

// What a reader found in a log, on tables whose own tests gave this verdict: its answer record.
#[tactic(auto, unfolding(crate::specs::Replay::replay_found))]
fn replay_found(
    queues: &mut [u8],
    pool: &mut [u8],
    tasks: &mut [u8],
    found: LogRecord,
    verdict: Result<(), RefusalStatus>,
) -> [u8; ANSWER_WIDTH]
    requires { (0 < length found.bytes.now) × Tested (tables queues.old pool.old tasks.old) verdict }
    ensures { (record { answers = result; after = tables queues.new pool.new tasks.new })
        ≡ replay_found (tables queues.old pool.old tasks.old) found.entry.result found.entry.bytes.now }
{
    let message = message_field(found.bytes);
    let a = answer(queues, pool, tasks, found.result, message, verdict);
    answer_record(a, found.bytes[0])
}

// Replays a log. The answer records go to the front of the lent bytes, which have room for them. How many bytes they are.
// The tables are searched once, before the first record: sound tables stay sound, and calls on others are refused and change nothing.
pub fn replay_all(
    queues: &mut [u8],
    pool: &mut [u8],
    tasks: &mut [u8],
    log: &[u8],
    answers: &mut [u8],
) -> usize
    requires { record_count (length log.now) * answer_width ≤ length answers.old }
    ensures { (result ≡ length (replayed (tables queues.old pool.old tasks.old) log.now).answers)
        × ((record { answers = answers.new; after = tables queues.new pool.new tasks.new })
        ≡ replayed_front (tables queues.old pool.old tasks.old) log.now answers.old) }
{
    let verdict = table_refusal(queues, pool, tasks);
    let mut written = 0;
    for found in LogReader::at(log, 0) {
        let a = replay_found(queues, pool, tasks, found, verdict);
        answers[written..written + ANSWER_WIDTH].copy_from_slice(&a);
        written += ANSWER_WIDTH;
    }
    written
}

// Replays a log, or does nothing where the lent bytes have no room for its answer records. Whether it was replayed.
#[tactic(auto, unfolding(crate::specs::Replay::replayed_into))]
pub fn replay(
    queues: &mut [u8],
    pool: &mut [u8],
    tasks: &mut [u8],
    log: &[u8],
    answers: &mut [u8],
) -> bool
    ensures { (record { done = result; answers = answers.new; after = tables queues.new pool.new tasks.new })
        ≡ replayed_into (tables queues.old pool.old tasks.old) log.now answers.old }
{
    if answers.len() / ANSWER_WIDTH < record_count(log.len()) {
        return false;
    }
    replay_all(queues, pool, tasks, log, answers);
    true
}
