// The records of the tables, read into values and written back.
#![tactic(auto)]

pub mod buffer; // buffer.rt: buffer records
pub mod layout; // layout.rt: the tables in numbers: records, bytes, places, shares
pub mod queue; // queue.rt: queue records
pub mod shares; // shares.rt: which share owns what
pub mod status; // status.rt: statuses
pub mod task; // task.rt: task records
