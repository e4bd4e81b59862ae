// The whole search, which ends at the first broken rule.
ghost use Rattle.std.specs.Prelude.{◌≡◌, length};
ghost use Rattle.records.specs.Layout.{queues_size, pool_size, tasks_size};
ghost use Rattle.records.specs.Bytes.{decode};
ghost use Rattle.specification.specs.Sound.{sound};

use crate::buffers::pool_sound;
use crate::priorities::priorities_sound;
use crate::queues::{limits_sound, queues_sound};
use crate::tasks::tasks_sound;

// The tables are sound.
pub fn is_sound(queues: &[u8], pool: &[u8], tasks: &[u8]) -> bool
    requires { (length queues.now ≡ queues_size) × ((length pool.now ≡ pool_size) × (length tasks.now ≡ tasks_size)) }
    ensures { result ≡ sound (decode (record { queues = queues.now; pool = pool.now; tasks = tasks.now })) }
{
    queues_sound(queues)
        && limits_sound(queues)
        && pool_sound(queues, pool)
        && tasks_sound(queues, tasks)
        && priorities_sound(queues, tasks)
}
