// Runs of calls: a call log replayed over the tables.
#![tactic(auto)]

pub mod replay; // replay.rt: a whole log
