// Bytes read from descriptors and written to them.
#![tactic(auto)]

pub mod reading; // reading.rt: a buffer filled by reads
pub mod writing; // writing.rt: bytes written, and messages
