// How far two byte strings agree.
ghost use Rattle.std.specs.Prelude.{◌≡◌};
ghost use Rattle.logio.specs.Agreeing.{agreement};

// How many bytes at the front are the same in both.
pub fn agreeing(a: &[u8], b: &[u8]) -> usize
    ensures { result ≡ agreement a.now b.now }
{
    a.iter().zip(b).take_while(|(x, y)| x == y).count()
}
