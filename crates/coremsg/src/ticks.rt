// What a tick does to one task.
ghost use Rattle.std.specs.Prelude.{◌≡◌, List, ℕ, ◌+◌, length};
ghost use Rattle.ranks.specs.Lists.{mask};
ghost use Rattle.records.specs.Layout.{tasks_size};
ghost use Rattle.records.specs.Bytes.{tables, decode_tasks, decode};
ghost use Rattle.specification.specs.Tick.{is_last_tick, is_ticking, expiring, tick_task};
ghost use Rattle.coremsg.specs.Ticks.{TickedTask};

use crate::steps::leave;
use records::status::TIMEOUT;
use records::task::{TaskHead, read_head, write_head};
use threadq::masks::mask_of;

// It waits, and this is its last tick.
fn expires(h: TaskHead) -> bool
    ensures { result ≡ is_last_tick h.state h.ticks_left }
{
    h.is_waiting() & (h.ticks_left == 1)
}

// It waits, and not forever.
fn is_timed(h: TaskHead) -> bool
    ensures { result ≡ is_ticking h.state h.ticks_left }
{
    h.is_waiting() & (1 <= h.ticks_left)
}

// The mask of the tasks whose last tick it is.
pub fn expired_mask(tasks: &[u8]) -> u32
    requires { length tasks.now ≡ tasks_size }
    ensures { result ≡ mask (expiring (decode_tasks tasks.now)) }
{
    mask_of(|t| expires(read_head(tasks, t)))
}

// "every waiting task with ticks above 0 loses one; all that reach 0 become ready": task t, whatever the buffers. The task that comes next.
pub fn tick_task(queues: &mut [u8], tasks: &mut [u8], t: usize) -> usize
    requires { TickedTask queues.old tasks.old t }
    ensures { (result ≡ t + 1) × ((pool : List ℕ) → decode (tables queues.new pool tasks.new)
        ≡ tick_task (decode (tables queues.old pool tasks.old)) t) }
{
    let h = read_head(tasks, t);
    if expires(h) {
        let slot = usize::from(h.queue - 1);
        leave(queues, tasks, t, slot, h.rank, TIMEOUT);
    } else if is_timed(h) {
        write_head(tasks, t, h.with_ticks(h.ticks_left - 1));
    }
    t + 1
}
