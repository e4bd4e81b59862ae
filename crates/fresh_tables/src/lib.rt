// Fresh tables, on which a run starts.
#![tactic(auto)]

pub mod make; // make.rt: in the tables lent, with any priorities
pub mod start; // start.rt: as the replay program starts
