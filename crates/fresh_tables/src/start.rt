// Fresh tables, as the replay program starts.
ghost use Rattle.std.specs.Prelude.{◌≡◌};
ghost use Rattle.ranks.specs.Lists.{numbers_from};
ghost use Rattle.records.specs.Layout.{task_count};
ghost use Rattle.records.specs.Bytes.{tables};
ghost use Rattle.specification.specs.Run.{fresh_tables};

use crate::make::make_fresh;
use records::layout::{POOL_SIZE, QUEUES_SIZE, TASK_COUNT, TASKS_SIZE};
use std::array;

// The bytes of the three tables as one value.
#[derive(Drop)]
pub struct TableBytes {
    pub queues: [u8; QUEUES_SIZE],
    pub pool: [u8; POOL_SIZE],
    pub tasks: [u8; TASKS_SIZE],
}

// "priority t+1 for task t"
fn priorities() -> [u8; TASK_COUNT]
    ensures { result ≡ numbers_from 1 task_count }
{
    array::from_fn(|t| t as u8 + 1)
}

// "The program starts fresh". The tables have their lengths and the priorities are 1 to 32, so that nothing is refused.
pub fn fresh() -> TableBytes
    ensures { tables result.queues result.pool result.tasks ≡ fresh_tables (numbers_from 1 task_count) }
{
    let mut queues = [0u8; QUEUES_SIZE];
    let mut pool = [0u8; POOL_SIZE];
    let mut tasks = [0u8; TASKS_SIZE];
    make_fresh(&mut queues, &mut pool, &mut tasks, &priorities());
    TableBytes {
        queues,
        pool,
        tasks,
    }
}
