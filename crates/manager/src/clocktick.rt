// The clock tick.
#![tactic(auto, using(crate::proofs::Calls::tested_ticks, crate::proofs::Ticks::ticks))]

ghost use Rattle.std.specs.Prelude.{◌≡◌, true};
ghost use Rattle.records.specs.Bytes.{decode, right_lengths, tables};
ghost use Rattle.specification.specs.Call.{tick};
ghost use Rattle.specification.specs.Sound.{sound};
ghost use Rattle.specification.specs.Step.{effect, encoded, step};
ghost use Rattle.common_refusals.specs.Tested.{Tested};
ghost use Rattle.manager.specs.Outcomes.{outcome_of};

use crate::answer::{Answer, Completion};
use common_refusals::table_refusal;
use coremsg::ticks::{expired_mask, tick_task};
use records::layout::TASK_COUNT;
use records::status::RefusalStatus;
use threadq::masks::ones_in;

// The tick, on sound tables.
fn tick(queues: &mut [u8], pool: &[u8], tasks: &mut [u8]) -> Answer
    requires { (right_lengths (tables queues.old pool.now tasks.old) ≡ true) × (sound (decode (tables queues.old pool.now tasks.old)) ≡ true) }
    ensures { outcome_of result (tables queues.new pool.now tasks.new)
        ≡ encoded (effect (decode (tables queues.old pool.now tasks.old)) tick) }
{
    let woken = expired_mask(tasks);
    for t in 0..TASK_COUNT {
        tick_task(queues, tasks, t);
    }
    let value = ones_in(woken);
    Ok(Completion::Successful { value, woken })
}

// The tick, on tables whose own tests gave this verdict.
pub fn tick_after(
    queues: &mut [u8],
    pool: &[u8],
    tasks: &mut [u8],
    verdict: Result<(), RefusalStatus>,
) -> Answer
    requires { Tested (tables queues.old pool.now tasks.old) verdict }
    ensures { outcome_of result (tables queues.new pool.now tasks.new)
        ≡ step (tables queues.old pool.now tasks.old) tick }
{
    verdict?;
    tick(queues, pool, tasks)
}

// "A tick has no caller."
pub fn clock_tick(queues: &mut [u8], pool: &[u8], tasks: &mut [u8]) -> Answer
    ensures { outcome_of result (tables queues.new pool.now tasks.new)
        ≡ step (tables queues.old pool.now tasks.old) tick }
{
    let verdict = table_refusal(queues, pool, tasks);
    tick_after(queues, pool, tasks, verdict)
}
