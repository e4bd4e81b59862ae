// Fresh tables, for C.
ghost use Rattle.std.specs.Prelude.{◌≡◌};
ghost use Rattle.records.specs.Bytes.{tables};
ghost use Rattle.message_manager.specs.Interface.{fresh_tables_made};

use crate::answer::done_status;
use fresh_tables::make::make_fresh;

// Makes the tables fresh. Where a table has a wrong length, or the priorities are not those of 32 tasks, each 1 to 255, returns 16 and
// does nothing.
#[unsafe(no_mangle)]
pub extern "C" fn message_manager_fresh_tables(
    queues: &mut [u8],
    pool: &mut [u8],
    tasks: &mut [u8],
    priorities: &[u8],
) -> u32
    ensures { (record { status = result; after = tables queues.new pool.new tasks.new })
        ≡ fresh_tables_made (tables queues.old pool.old tasks.old) priorities.now }
{
    done_status(make_fresh(queues, pool, tasks, priorities))
}
