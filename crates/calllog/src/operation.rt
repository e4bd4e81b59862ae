// Operations, and the fields that each may use.
ghost use Rattle.std.specs.Prelude.{◌≡◌};
ghost use Rattle.calllog.specs.CallLog.{row_of};
ghost use Rattle.calllog.specs.Operations.{number_of, Numbered, row_with};

// What a record asks for: "1 to 10 in the order create, ident, delete, send, urgent, broadcast, receive, pending, flush, tick".
#[derive(Clone, Copy, Debug, PartialEq, Eq)]
pub enum Operation {
    Create = 1,
    Ident = 2,
    Delete = 3,
    Send = 4,
    Urgent = 5,
    Broadcast = 6,
    Receive = 7,
    Pending = 8,
    Flush = 9,
    Tick = 10,
}

// A number that no operation has.
#[derive(Clone, Copy, Debug, PartialEq, Eq)]
pub struct UnknownOperation(pub u8);

// The operation that byte 0 of a record says.
impl TryFrom<u8> for Operation {
    type Error = UnknownOperation;

    ghost try_from_gives = { Numbered };

    fn try_from(number: u8) -> Result<Self, UnknownOperation> {
        match number {
            1 => Ok(Operation::Create),
            2 => Ok(Operation::Ident),
            3 => Ok(Operation::Delete),
            4 => Ok(Operation::Send),
            5 => Ok(Operation::Urgent),
            6 => Ok(Operation::Broadcast),
            7 => Ok(Operation::Receive),
            8 => Ok(Operation::Pending),
            9 => Ok(Operation::Flush),
            10 => Ok(Operation::Tick),
            _ => Err(UnknownOperation(number)),
        }
    }
}

// The fields that an operation may use.
#[derive(Clone, Copy, Debug, PartialEq, Eq)]
pub struct Row {
    pub caller: bool,
    pub option: bool,
    pub size: bool,
    pub id: bool,
    pub ticks: bool,
    pub limit: bool,
    pub max_size: bool,
    pub message: bool,
}

// No field.
const EMPTY: Row = Row {
    caller: false,
    option: false,
    size: false,
    id: false,
    ticks: false,
    limit: false,
    max_size: false,
    message: false,
};

// "A fixed row per operation says which fields it may use": the row of each operation, at its number.
const ROWS: [Row; 11] = [
    // No operation has number 0.
    EMPTY,
    // create, "1: 1, 2, 4-7, 12, 13"
    Row {
        caller: true,
        option: true,
        id: true,
        limit: true,
        max_size: true,
        ..EMPTY
    },
    // ident, "2: 1, 4-7, 8-11"
    Row {
        caller: true,
        id: true,
        ticks: true, // the share
        ..EMPTY
    },
    // delete, "3, 8, 9: 1, 4-7"
    Row {
        caller: true,
        id: true,
        ..EMPTY
    },
    // send, "4, 5, 6: 1, 3, 4-7, message"
    Row {
        caller: true,
        size: true,
        id: true,
        message: true,
        ..EMPTY
    },
    // urgent, "4, 5, 6: 1, 3, 4-7, message"
    Row {
        caller: true,
        size: true,
        id: true,
        message: true,
        ..EMPTY
    },
    // broadcast, "4, 5, 6: 1, 3, 4-7, message"
    Row {
        caller: true,
        size: true,
        id: true,
        message: true,
        ..EMPTY
    },
    // receive, "7: 1, 2, 4-7, 8-11"
    Row {
        caller: true,
        option: true,
        id: true,
        ticks: true, // the ticks
        ..EMPTY
    },
    // pending, "3, 8, 9: 1, 4-7"
    Row {
        caller: true,
        id: true,
        ..EMPTY
    },
    // flush, "3, 8, 9: 1, 4-7"
    Row {
        caller: true,
        id: true,
        ..EMPTY
    },
    // tick, "10: none"
    EMPTY,
];

// The row of an operation, by its number. Another operation may use no field.
pub fn row_of(operation: usize) -> Row
    ensures { result ≡ row_with (row_of operation) }
{
    if operation < ROWS.len() {
        return ROWS[operation];
    }
    EMPTY
}

impl Operation {
    // The fields that this operation may use.
    pub fn row(self) -> Row
        ensures { result ≡ row_with (row_of (number_of self)) }
    {
        row_of(self as usize)
    }
}
