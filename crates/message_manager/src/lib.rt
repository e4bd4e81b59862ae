// The message queue manager for programs in other languages: functions with C's calling convention over lent buffers.
// A slice passes as a pointer and then a length.
#![tactic(auto)]

pub mod answer; // answer.rt: the answer buffer
pub mod compare; // compare.rt: what differs between two images
pub mod directives; // directives.rt: the nine directives and the clock tick
pub mod fresh; // fresh.rt: fresh tables
pub mod logs; // logs.rt: a call record, and a whole log
