// Bytes: numbers in them, copies, zeros.
#![tactic(auto)]

pub mod copy; // copy.rt: bytes copied
pub mod numbers; // numbers.rt: numbers, lowest byte first
pub mod zeros; // zeros.rt: bytes that have to be zero
