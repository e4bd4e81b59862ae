// What one record of two images differs in.

// The record's table (0 queues, 1 pool, 2 tasks) and its number there, the first place in it that differs, and how many do.
#[repr(C)]
#[derive(Clone, Copy, Debug, Default, PartialEq, Eq)]
pub struct Difference {
    pub table: u8,
    pub number: u8,
    pub place: u8,
    pub count: u8,
}
