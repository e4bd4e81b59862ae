// Fresh tables, on which a run starts: "It starts on fresh tables."
ghost use Rattle.std.specs.Prelude.{◌≡◌, true, length};
ghost use Rattle.records.specs.Layout.{tasks_size, task_count};
ghost use Rattle.records.specs.Records.{fresh_tasks};
ghost use Rattle.records.specs.Bytes.{decode_tasks, right_lengths, tables};
ghost use Rattle.specification.specs.Run.{good_priorities, fresh_tables};
ghost use Rattle.fresh_tables.specs.Fresh.{made_fresh};

use common_refusals::right_lengths;
use records::layout::TASK_COUNT;
use records::task::write_fresh_task;

// "priorities of 1 to 255", of 32 tasks
pub fn good_priorities(priorities: &[u8]) -> bool
    ensures { result ≡ good_priorities priorities.now }
{
    priorities.len() == TASK_COUNT && priorities.iter().all(|p| *p != 0)
}

// Each task is ready with its priority, and the rest of its record is zero.
fn make_tasks(tasks: &mut [u8], priorities: &[u8])
    requires { (length tasks.old ≡ tasks_size) × (length priorities.now ≡ task_count) }
    ensures { decode_tasks tasks.new ≡ fresh_tasks priorities.now }
{
    for (t, priority) in priorities.iter().enumerate() {
        write_fresh_task(tasks, t, *priority);
    }
}

// "Fresh tables are zero but for priorities", in tables of the right lengths.
fn write_fresh(queues: &mut [u8], pool: &mut [u8], tasks: &mut [u8], priorities: &[u8])
    requires { (right_lengths (tables queues.old pool.old tasks.old) ≡ true) × (length priorities.now ≡ task_count) }
    ensures { tables queues.new pool.new tasks.new ≡ fresh_tables priorities.now }
{
    queues.fill(0);
    pool.fill(0);
    make_tasks(tasks, priorities);
}

// Makes the tables fresh, or does nothing where a table has a wrong length or a priority is wrong. Whether they are fresh.
pub fn make_fresh(queues: &mut [u8], pool: &mut [u8], tasks: &mut [u8], priorities: &[u8]) -> bool
    ensures { (record { done = result; after = tables queues.new pool.new tasks.new })
        ≡ made_fresh (tables queues.old pool.old tasks.old) priorities.now }
{
    if !right_lengths(queues, pool, tasks) || !good_priorities(priorities) {
        return false;
    }
    write_fresh(queues, pool, tasks, priorities);
    true
}
