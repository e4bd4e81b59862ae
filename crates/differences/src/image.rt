// The records of an image.
ghost use Rattle.std.specs.Prelude.{◌≡◌, ◌+◌, ◌*◌, ◌<◌, ◌≤◌};
ghost use Rattle.octets.specs.LittleEndian.{byte_values};
ghost use Rattle.records.specs.Layout.{image_size, image_record_count};
ghost use Rattle.differences.specs.Comparisons.{image_record_at};
ghost use Rattle.differences.specs.Differences.{table_record};

use records::layout::{
    BUFFER_COUNT, BUFFER_WIDTH, POOL_PLACE, QUEUE_WIDTH, QUEUES_PLACE, SLOT_COUNT, TASK_WIDTH,
    TASKS_PLACE,
};

// "0 queues, 1 pool, 2 tasks"
#[derive(Clone, Copy, Debug, PartialEq, Eq)]
pub enum Table {
    Queues = 0,
    Pool = 1,
    Tasks = 2,
}

// A record of an image: its table, its number there, where it starts, and how many bytes it has.
#[derive(Clone, Copy, Debug, PartialEq, Eq)]
pub struct ImageRecord {
    pub table: Table,
    pub number: u8,
    pub start: usize,
    pub width: usize,
}

// Record n of a table that starts at a place of the image.
fn table_record(table: Table, place: usize, width: usize, n: usize) -> ImageRecord
    requires { (n < byte_values) × (place + n * width ≤ image_size) }
    ensures { result ≡ table_record table place width n }
{
    ImageRecord {
        table,
        number: n as u8,
        start: place + n * width,
        width,
    }
}

// Record k of an image.
#[tactic(auto, unfolding(crate::specs::Comparisons::image_record_at))]
pub fn image_record(k: usize) -> ImageRecord
    requires { k < image_record_count }
    ensures { (result ≡ image_record_at k) × ((result.start + result.width ≤ image_size) × (result.width < byte_values)) }
{
    if k < SLOT_COUNT {
        return table_record(Table::Queues, QUEUES_PLACE, QUEUE_WIDTH, k);
    }
    let k = k - SLOT_COUNT;
    if k < BUFFER_COUNT {
        return table_record(Table::Pool, POOL_PLACE, BUFFER_WIDTH, k);
    }
    table_record(Table::Tasks, TASKS_PLACE, TASK_WIDTH, k - BUFFER_COUNT)
}
