// Calls, and what reading a log yields.

// A directive with its numbers. A message stays in the log: it is the first size bytes of the record's message field.
#[derive(Clone, Copy, Debug, PartialEq, Eq)]
pub enum Directive {
    Create {
        name: u32,
        limit: u8,
        max_size: u8,
        attributes: u8,
    },
    Ident {
        name: u32,
        share: u32,
    },
    Delete {
        id: u32,
    },
    Send {
        id: u32,
        size: u8,
    },
    Urgent {
        id: u32,
        size: u8,
    },
    Broadcast {
        id: u32,
        size: u8,
    },
    Receive {
        id: u32,
        option: u8,
        ticks: u32,
    },
    Pending {
        id: u32,
    },
    Flush {
        id: u32,
    },
}

// A directive by its caller, or a tick.
#[derive(Clone, Copy, Debug, PartialEq, Eq)]
pub enum Call {
    By { caller: u8, directive: Directive },
    Tick,
}

// "Reading a log yields a well-formed call with its kind and data, or a malformed mark"; at its end the end.
#[derive(Clone, Copy, Debug, PartialEq, Eq)]
pub enum LogResult {
    WellFormed(Call),
    Malformed,
    End,
}
