// What a record of a log says, and what stands at a place of a log.
ghost use Rattle.std.specs.Prelude.{◌≡◌, if◌then◌else◌};
ghost use Rattle.calllog.specs.declared.call.LogResult.TheVariants.{WellFormed};
ghost use Rattle.calllog.specs.CallLog.{message_of, row_of, keeps_row, call_with, read_record, read_at, place_after, record_count};
ghost use Rattle.calllog.specs.Operations.{number_of, numbers_in};

use crate::call::{Call, Directive, LogResult};
use crate::layout::{
    CALLER, ID, LIMIT, MAX_SIZE, MESSAGE, OPERATION, OPTION, RECORD_WIDTH, RESERVED, SIZE, TICKS,
};
use crate::operation::{Operation, Row};
use octets::numbers::{read_u16, read_u32};
use octets::zeros::zeros_from;
use records::layout::CAPACITY;

// The message field of a record, which a short part may not have.
pub fn message_field(part: &[u8]) -> &[u8]
    ensures { result.now ≡ message_of part.now }
{
    part.get(MESSAGE..).unwrap_or(&[])
}

// The numbers in a record's fields.
#[derive(Clone, Copy, Debug, PartialEq, Eq)]
struct Numbers {
    caller: u8,
    option: u8,
    size: u8,
    id: u32,
    ticks: u32,
    limit: u8,
    max_size: u8,
    reserved: u16,
}

#[tactic(auto, using(crate::proofs::Laws::one_byte))]
fn numbers_in(bytes: &[u8; RECORD_WIDTH]) -> Numbers
    ensures { result ≡ numbers_in bytes.now }
{
    Numbers {
        caller: bytes[CALLER],
        option: bytes[OPTION],
        size: bytes[SIZE],
        id: read_u32(bytes, ID),
        ticks: read_u32(bytes, TICKS),
        limit: bytes[LIMIT],
        max_size: bytes[MAX_SIZE],
        reserved: read_u16(bytes, RESERVED),
    }
}

// How many bytes of its field the message has: none where the row names no message.
fn message_size(row: Row, numbers: Numbers) -> usize
    ensures { result ≡ (if row.message then numbers.size else 0) }
{
    if row.message {
        usize::from(numbers.size)
    } else {
        0
    }
}

// "Anything else not zero, a size above 120" is malformed: a field that the operation's row does not name is zero, and so is what follows the
// message, which is the whole field where the row names none. The tests have no branch between them.
#[tactic(auto, using(crate::proofs::Laws::keeps))]
fn keeps_row(operation: Operation, numbers: Numbers, bytes: &[u8; RECORD_WIDTH]) -> bool
    requires { numbers ≡ numbers_in bytes.now }
    ensures { result ≡ keeps_row (row_of (number_of operation)) bytes.now }
{
    let row = operation.row();
    (row.caller | (numbers.caller == 0))
        & (row.option | (numbers.option == 0))
        & (row.size | (numbers.size == 0))
        & (row.id | (numbers.id == 0))
        & (row.ticks | (numbers.ticks == 0))
        & (row.limit | (numbers.limit == 0))
        & (row.max_size | (numbers.max_size == 0))
        & (numbers.reserved == 0)
        & (usize::from(numbers.size) <= CAPACITY)
        & zeros_from(bytes, MESSAGE + message_size(row, numbers))
}

// The call of an operation with these numbers.
#[tactic(auto, unfolding(crate::specs::CallLog::call_with))]
fn call_with(operation: Operation, numbers: Numbers) -> Call
    ensures { WellFormed result ≡ call_with (number_of operation) numbers.caller numbers.option numbers.size numbers.id numbers.ticks
        numbers.limit numbers.max_size }
{
    let Numbers {
        caller,
        option,
        size,
        id,
        ticks,
        limit,
        max_size,
        ..
    } = numbers;
    let directive = match operation {
        Operation::Create => Directive::Create {
            name: id,
            limit,
            max_size,
            attributes: option,
        },
        Operation::Ident => Directive::Ident {
            name: id,
            share: ticks,
        },
        Operation::Delete => Directive::Delete { id },
        Operation::Send => Directive::Send { id, size },
        Operation::Urgent => Directive::Urgent { id, size },
        Operation::Broadcast => Directive::Broadcast { id, size },
        Operation::Receive => Directive::Receive { id, option, ticks },
        Operation::Pending => Directive::Pending { id },
        Operation::Flush => Directive::Flush { id },
        Operation::Tick => return Call::Tick,
    };
    Call::By { caller, directive }
}

// What a record says. A part of another length is malformed.
#[tactic(auto, using(crate::proofs::Laws::what_is_said))]
pub fn read_record(part: &[u8]) -> LogResult
    ensures { result ≡ read_record part.now }
{
    let Some(bytes) = part.as_array::<RECORD_WIDTH>() else {
        return LogResult::Malformed;
    };
    let Ok(operation) = Operation::try_from(bytes[OPERATION]) else {
        return LogResult::Malformed;
    };
    let numbers = numbers_in(bytes);
    if !keeps_row(operation, numbers, bytes) {
        return LogResult::Malformed;
    }
    LogResult::WellFormed(call_with(operation, numbers))
}

// What stands at a place of a log: a record, a short last part, or the end.
#[tactic(auto, using(crate::proofs::Laws::what_is_found))]
pub fn decode(log: &[u8], at: usize) -> LogResult
    ensures { result ≡ read_at log.now at }
{
    if log.len() <= at {
        return LogResult::End;
    }
    read_record(&log[at..place_after(log, at)])
}

// The place after what stands at a place of a log.
#[tactic(auto, using(crate::proofs::Laws::what_is_found))]
pub fn place_after(log: &[u8], at: usize) -> usize
    ensures { result ≡ place_after log.now at }
{
    if log.len() <= at {
        return at;
    }
    log.len().min(at + RECORD_WIDTH)
}

// How many records a log of n bytes has, a short last part counted.
#[tactic(auto, unfolding(crate::specs::CallLog::record_count))]
pub fn record_count(n: usize) -> usize
    ensures { result ≡ record_count n }
{
    n.div_ceil(RECORD_WIDTH)
}
