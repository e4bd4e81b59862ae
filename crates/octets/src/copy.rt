// Bytes copied.
ghost use Rattle.std.specs.Prelude.{◌≡◌, ◌+◌, ◌≤◌, length};
ghost use Rattle.ranks.specs.Table.{spliced};

// Copies src into t from place i on. A loop: `copy_from_slice` makes the library for C call `memmove` too.
pub fn copy_into(t: &mut [u8], i: usize, src: &[u8])
    requires { i + length src.now ≤ length t.old }
    ensures { t.new ≡ spliced t.old i src.now }
{
    for k in 0..src.len() {
        t[i + k] = src[k];
    }
}
