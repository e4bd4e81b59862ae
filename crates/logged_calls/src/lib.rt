// A call of a log, done on the tables.
#![tactic(auto)]

pub mod answer; // answer.rt: the answer to what a reader found
pub mod perform; // perform.rt: a log's directive on the tables
