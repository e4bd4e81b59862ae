// What a call answers: how it was completed, or the status that refuses it.
use records::status::RefusalStatus;

// The call is done, with its value and the mask of the tasks that it woke; or the caller waits.
#[derive(Clone, Copy, Debug, PartialEq, Eq)]
pub enum Completion {
    Successful { value: u32, woken: u32 },
    Waiting,
}

pub type Answer = Result<Completion, RefusalStatus>;
