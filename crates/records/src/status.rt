// Document 01, "Status numbers".
ghost use Rattle.std.specs.Prelude.{◌≡◌};
ghost use Rattle.records.specs.Status.{status_number};

pub const SUCCESSFUL: u8 = 0;

pub const INVALID_NAME: u8 = 1;

pub const INVALID_ID: u8 = 2;

pub const INVALID_SIZE: u8 = 3;

pub const INVALID_NUMBER: u8 = 4;

pub const TOO_MANY: u8 = 5;

pub const UNSATISFIED: u8 = 6;

pub const TIMEOUT: u8 = 7;

pub const OBJECT_WAS_DELETED: u8 = 8;

pub const INVALID_NODE: u8 = 9;

pub const CORRUPT: u8 = 10;

pub const BAD_CALLER: u8 = 11;

pub const ILLEGAL_ON_REMOTE_OBJECT: u8 = 12;

pub const NO_BUFFER: u8 = 13;

pub const WAITING: u8 = 14;

pub const INVALID_OPTION: u8 = 15;

pub const BAD_SHAPE: u8 = 16;

// A status that refuses a call: "All but 0 and 14 are refusals", and 7 and 8 are "only written to a task".
#[derive(Clone, Copy, Debug, PartialEq, Eq)]
pub enum RefusalStatus {
    InvalidName,
    InvalidId,
    InvalidSize,
    InvalidNumber,
    TooMany,
    Unsatisfied,
    InvalidNode,
    Corrupt,
    BadCaller,
    IllegalOnRemoteObject,
    NoBuffer,
    InvalidOption,
    BadShape,
}

// The status's number.
impl From<RefusalStatus> for u8 {
    ghost from_gives = { λ status number. number ≡ status_number status };

    fn from(status: RefusalStatus) -> u8 {
        match status {
            RefusalStatus::InvalidName => INVALID_NAME,
            RefusalStatus::InvalidId => INVALID_ID,
            RefusalStatus::InvalidSize => INVALID_SIZE,
            RefusalStatus::InvalidNumber => INVALID_NUMBER,
            RefusalStatus::TooMany => TOO_MANY,
            RefusalStatus::Unsatisfied => UNSATISFIED,
            RefusalStatus::InvalidNode => INVALID_NODE,
            RefusalStatus::Corrupt => CORRUPT,
            RefusalStatus::BadCaller => BAD_CALLER,
            RefusalStatus::IllegalOnRemoteObject => ILLEGAL_ON_REMOTE_OBJECT,
            RefusalStatus::NoBuffer => NO_BUFFER,
            RefusalStatus::InvalidOption => INVALID_OPTION,
            RefusalStatus::BadShape => BAD_SHAPE,
        }
    }
}
