// Ids, and who may use a queue.
ghost use Rattle.std.specs.Prelude.{◌≡◌, ◌<◌};
ghost use Rattle.records.specs.Layout.{id_of, slot_of, generation_of, slot_count, task_count};
ghost use Rattle.records.specs.Status.{verdict_status};
ghost use Rattle.specification.specs.Answer.{first_status};
ghost use Rattle.specification.specs.Lookup.{owner_tests, usable_queue, is_foreign};

use records::layout::SLOT_COUNT;
use records::queue::QueueRecord;
use records::shares::{share_of_slot, share_of_task};
use records::status::RefusalStatus;

// "An id is generation x 16 + slot."
pub fn slot_of(id: u32) -> usize
    ensures { result ≡ slot_of id }
{
    id as usize % SLOT_COUNT
}

fn generation_of(id: u32) -> usize
    ensures { result ≡ generation_of id }
{
    id as usize / SLOT_COUNT
}

// "An id is usable if its slot (id mod 16) is live, id div 16 is its generation, and the slot is in the caller's share or OPEN."
#[tactic(auto, unfolding(ranks::specs::Lists::all_true, specification::specs::Lookup::is_foreign))]
pub fn usable(q: QueueRecord, caller: usize, id: u32) -> bool
    requires { caller < task_count }
    ensures { result ≡ usable_queue q caller id }
{
    q.is_live()
        & (generation_of(id) == usize::from(q.generation))
        & (!is_foreign(caller, slot_of(id)) | q.is_open())
}

// The slot is of another share than the caller.
#[tactic(auto, unfolding(specification::specs::Lookup::is_foreign))]
fn is_foreign(caller: usize, slot: usize) -> bool
    requires { (caller < task_count) × (slot < slot_count) }
    ensures { result ≡ is_foreign caller slot }
{
    share_of_slot(slot) != share_of_task(caller)
}

// "2, 12": the first refusal of a call that only the queue's own share may make.
#[tactic(auto, unfolding(specification::specs::Answer::first_status))]
pub fn owner_refusal(q: QueueRecord, caller: usize, id: u32) -> Result<(), RefusalStatus>
    requires { caller < task_count }
    ensures { verdict_status result ≡ first_status (owner_tests q caller id) }
{
    if !usable(q, caller, id) {
        return Err(RefusalStatus::InvalidId);
    }
    if is_foreign(caller, slot_of(id)) {
        return Err(RefusalStatus::IllegalOnRemoteObject);
    }
    Ok(())
}

// "An id is generation x 16 + slot."
#[tactic(auto, unfolding(records::specs::Layout::id_of))]
pub fn id_of(generation: u16, slot: usize) -> u32
    requires { slot < slot_count }
    ensures { result ≡ id_of generation slot }
{
    (usize::from(generation) * SLOT_COUNT + slot) as u32
}
