// The soundness search: whether three tables are sound.
#![tactic(auto)]

pub mod buffers; // buffers.rt: the rules of buffers
pub mod priorities; // priorities.rt: priorities of waiters
pub mod queues; // queues.rt: the queues' own rules and the limits of a share
pub mod ranked; // ranked.rt: the ranks of messages and of waiters
pub mod search; // search.rt: the whole search
pub mod tasks; // tasks.rt: the rules of tasks
