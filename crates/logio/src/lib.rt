// What the programs that replay call logs share.
#![tactic(auto)]

pub mod agreeing; // agreeing.rt: how far two byte strings agree
pub mod block; // block.rt: a block of a log, read and replayed
pub mod input; // input.rt: a log of any length on standard input
