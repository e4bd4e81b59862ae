// Queues as objects: ids, names and slots.
#![tactic(auto)]

pub mod lookup; // lookup.rt: ids, and who may use a queue
pub mod slots; // slots.rt: the free slot of a share, the slot of a name, a queue made in a slot, its record changed or freed
