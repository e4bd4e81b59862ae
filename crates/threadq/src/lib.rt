// Tasks that wait in a queue: the thread queue handler below the message queue handler.
#![tactic(auto)]

pub mod masks; // masks.rt: masks of tasks
pub mod waiters; // waiters.rt: the tasks that wait in a queue
pub mod waitrank; // waitrank.rt: the rank at which a task begins to wait
