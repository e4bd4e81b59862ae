// "An answer is status, value (32 bits) and a woken mask", as numbers.
#[repr(C)]
#[derive(Clone, Copy, Debug, PartialEq, Eq)]
pub struct Answer {
    pub status: u32,
    pub value: u32,
    pub woken: u32,
}
