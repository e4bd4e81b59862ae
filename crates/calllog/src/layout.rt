// Document 01, "The call log": how many bytes a call record and an answer record have, and where each field stands in a call record.
use records::layout::CAPACITY;

// "0 operation"
pub const OPERATION: usize = 0;

// "1 caller"
pub const CALLER: usize = 1;

// "2 attributes or option"
pub const OPTION: usize = 2;

// "3 size"
pub const SIZE: usize = 3;

// "4-7 id or name"
pub const ID: usize = 4;

// "8-11 ticks or share"
pub const TICKS: usize = 8;

// "12 limit"
pub const LIMIT: usize = 12;

// "13 max size"
pub const MAX_SIZE: usize = 13;

// "14-15 zero"
pub const RESERVED: usize = 14;

// "16-135 message"
pub const MESSAGE: usize = 16;

// "A call record is 136 bytes"
pub const RECORD_WIDTH: usize = MESSAGE + CAPACITY;

// "An answer record is 16 bytes"
pub const ANSWER_WIDTH: usize = 16;
