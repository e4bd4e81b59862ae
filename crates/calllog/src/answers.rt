// Answer records.
ghost use Rattle.std.specs.Prelude.{◌≡◌};
ghost use Rattle.calllog.specs.CallLog.{answer_bytes};

use crate::layout::ANSWER_WIDTH;

// "status, first byte of the call, 0, 0, value, mask, four zeros"
pub fn answer_bytes(status: u8, first_byte: u8, value: u32, mask: u32) -> [u8; ANSWER_WIDTH]
    ensures { result ≡ answer_bytes status first_byte value mask }
{
    let mut bytes = [0; ANSWER_WIDTH];
    bytes[0] = status;
    bytes[1] = first_byte;
    bytes[4..8].copy_from_slice(&value.to_le_bytes());
    bytes[8..12].copy_from_slice(&mask.to_le_bytes());
    bytes
}
