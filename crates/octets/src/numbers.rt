// Numbers, lowest byte first.
ghost use Rattle.std.specs.Prelude.{◌≡◌, ◌+◌, ◌^◌, ◌<◌, ◌≤◌, length};
ghost use Rattle.ranks.specs.Table.{slice};
ghost use Rattle.octets.specs.LittleEndian.{byte_values, from_little_endian, to_little_endian};

// How many values a byte has.
pub const BYTE_VALUES: usize = 256;

// The N bytes from place at on.
#[tactic(auto, unfolding(ranks::specs::Table::slice))]
pub fn bytes_at<const N: usize>(t: &[u8], at: usize) -> [u8; N]
    requires { at + N ≤ length t.now }
    ensures { result ≡ slice at N t.now }
{
    let mut bytes = [0; N];
    bytes.copy_from_slice(&t[at..at + N]);
    bytes
}

// The number in two bytes from place at on.
pub fn read_u16(t: &[u8], at: usize) -> u16
    requires { at + 2 ≤ length t.now }
    ensures { result ≡ from_little_endian (slice at 2 t.now) }
{
    u16::from_le_bytes(bytes_at(t, at))
}

// The number in four bytes from place at on.
pub fn read_u32(t: &[u8], at: usize) -> u32
    requires { at + 4 ≤ length t.now }
    ensures { result ≡ from_little_endian (slice at 4 t.now) }
{
    u32::from_le_bytes(bytes_at(t, at))
}

// The number in eight bytes from place at on.
pub fn read_u64(t: &[u8], at: usize) -> u64
    requires { at + 8 ≤ length t.now }
    ensures { result ≡ from_little_endian (slice at 8 t.now) }
{
    u64::from_le_bytes(bytes_at(t, at))
}

// The two bytes of a number.
#[tactic(auto, unfolding(crate::specs::LittleEndian::to_little_endian))]
pub fn bytes_of_u16(n: u16) -> [u8; 2]
    ensures { (result ≡ to_little_endian 2 n) × (n < byte_values ^ 2) }
{
    u16::to_le_bytes(n)
}

// The four bytes of a number.
#[tactic(auto, unfolding(crate::specs::LittleEndian::to_little_endian))]
pub fn bytes_of_u32(n: u32) -> [u8; 4]
    ensures { (result ≡ to_little_endian 4 n) × (n < byte_values ^ 4) }
{
    u32::to_le_bytes(n)
}
