// Bytes that have to be zero.
ghost use Rattle.std.specs.Prelude.{◌≡◌, ◌+◌, ◌≤◌, length, drop};
ghost use Rattle.ranks.specs.Lists.{all_zero};
ghost use Rattle.ranks.specs.Table.{slice};

use crate::numbers::bytes_at;

// How many bytes are tested at once.
const BLOCK: usize = 32;

// The N bytes from place at on are zero.
pub fn zeros_at<const N: usize>(t: &[u8], at: usize) -> bool
    requires { at + N ≤ length t.now }
    ensures { result ≡ all_zero (slice at N t.now) }
{
    bytes_at::<N>(t, at) == [0; N]
}

// The bytes from a place on are zero, one by one and with no branch between them.
fn single_zeros_from(t: &[u8], from: usize) -> bool
    ensures { result ≡ all_zero (drop from t.now) }
{
    t[from.min(t.len())..]
        .iter()
        .fold(true, |good, b| good & (*b == 0))
}

// The bytes from a place on are zero, in blocks. The last block is at the end, so that it may overlap the one before it.
// Each call has a copy of its own: a call for each record takes longer than the test.
#[inline(always)]
pub fn zeros_from(t: &[u8], from: usize) -> bool
    ensures { result ≡ all_zero (drop from t.now) }
{
    let last = t.len().saturating_sub(BLOCK);
    if last <= from {
        return single_zeros_from(t, from);
    }
    for at in (from..last).step_by(BLOCK) {
        if !zeros_at::<BLOCK>(t, at) {
            return false;
        }
    }
    zeros_at::<BLOCK>(t, last)
}
