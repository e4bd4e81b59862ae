// A stored case, run on the code.
ghost use Rattle.std.specs.Prelude.{◌≡◌, ◌*◌, ◌≤◌, length};
ghost use Rattle.records.specs.Bytes.{tables};
ghost use Rattle.records.specs.Layout.{image_size};
ghost use Rattle.calllog.specs.CallLog.{answer_width, record_count};
ghost use Rattle.replay_cases.specs.StoredCase.{answers_room, changed, tables_in, same_tables, replays_to, case_holds};

use calllog::layout::ANSWER_WIDTH;
use octets::numbers::bytes_at;
use records::layout::{
    IMAGE_SIZE, POOL_PLACE, POOL_SIZE, QUEUES_PLACE, QUEUES_SIZE, TASKS_PLACE, TASKS_SIZE,
};
use runs::replay::replay_all;

// The room for what follows the head of a case.
pub const REST_ROOM: usize = 8192;

// The records of a log in that room are no more than these.
const REST_RECORDS: usize = 64;

// The room for the answers to them.
const ANSWERS_ROOM: usize = REST_RECORDS * ANSWER_WIDTH;

// Writes the changes to an image, each of three bytes: those at places that the image has.
fn change(image: &mut [u8], changes: &[u8])
    ensures { image.new ≡ changed image.old changes.now }
{
    let mut rest = changes;
    while let [low, high, b, after @ ..] = rest {
        let place = usize::from(u16::from_le_bytes([*low, *high]));
        if place < image.len() {
            image[place] = *b;
        }
        rest = after;
    }
}

// Whether the tables are those of an image.
fn are_tables_in(queues: &[u8], pool: &[u8], tasks: &[u8], image: &[u8]) -> bool
    requires { length image.now ≡ image_size }
    ensures { result ≡ same_tables (tables queues.now pool.now tasks.now) (tables_in image.now) }
{
    (queues == &image[QUEUES_PLACE..POOL_PLACE])
        & (pool == &image[POOL_PLACE..TASKS_PLACE])
        & (tasks == &image[TASKS_PLACE..IMAGE_SIZE])
}

// Whether the log, replayed over the tables, is answered as stored and leaves the tables of the image.
fn replays_to(
    queues: &mut [u8],
    pool: &mut [u8],
    tasks: &mut [u8],
    log: &[u8],
    stored: &[u8],
    image: &[u8],
) -> bool
    requires { (record_count (length log.now) * answer_width ≤ answers_room) × (length image.now ≡ image_size) }
    ensures { result ≡ replays_to (tables queues.old pool.old tasks.old)
        log.now stored.now image.now }
{
    let mut answers = [0u8; ANSWERS_ROOM];
    let end = replay_all(queues, pool, tasks, log, &mut answers);
    (&answers[..end] == stored) & are_tables_in(queues, pool, tasks, image)
}

// Whether the log does so from the tables of an image.
fn replays_from(start: &[u8], log: &[u8], stored: &[u8], image: &[u8]) -> bool
    requires { (length start.now ≡ image_size) × ((record_count (length log.now) * answer_width ≤ answers_room) × (length image.now ≡ image_size)) }
    ensures { result ≡ replays_to (tables_in start.now) log.now stored.now image.now }
{
    let mut queues = bytes_at::<QUEUES_SIZE>(start, QUEUES_PLACE);
    let mut pool = bytes_at::<POOL_SIZE>(start, POOL_PLACE);
    let mut tasks = bytes_at::<TASKS_SIZE>(start, TASKS_PLACE);
    replays_to(&mut queues, &mut pool, &mut tasks, log, stored, image)
}

// An image with changes written to it.
fn with_changes(image: &[u8], changes: &[u8]) -> [u8; IMAGE_SIZE]
    requires { length image.now ≡ image_size }
    ensures { result ≡ changed image.now changes.now }
{
    let mut new = [0u8; IMAGE_SIZE];
    new.copy_from_slice(image);
    change(&mut new, changes);
    new
}

// Whether a case holds: from the image with the changes before it, the log is answered as stored and makes the changes after it.
pub fn case_holds(image: &[u8], before: &[u8], log: &[u8], stored: &[u8], after: &[u8]) -> bool
    requires { (length image.now ≡ image_size) × (record_count (length log.now) * answer_width ≤ answers_room) }
    ensures { result ≡ case_holds image.now before.now log.now stored.now after.now }
{
    let start = with_changes(image, before);
    let end = with_changes(&start, after);
    replays_from(&start, log, stored, &end)
}
