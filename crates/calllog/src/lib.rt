// The call log: its records, its reader and its answer records.
#![tactic(auto)]

pub mod answers; // answers.rt: answer records
pub mod call; // call.rt: calls, and what reading a log yields
pub mod decode; // decode.rt: what a record says, and what stands at a place of a log
pub mod layout; // layout.rt: how many bytes each record has, and where its fields stand
pub mod operation; // operation.rt: operations, and the fields that each may use
pub mod reader; // reader.rt: a log and the place reached in it
