// What the directives do with messages and waiters: the message queue handler, over the thread queue handler.
#![tactic(auto)]

pub mod clears; // clears.rt: what becomes of a queue with all of its messages or waiters
pub mod messages; // messages.rt: the messages of a queue
pub mod steps; // steps.rt: what becomes of a queue's record and of its messages or waiters together
pub mod ticks; // ticks.rt: what a tick does to one task
