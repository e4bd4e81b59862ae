// The rank steps, for messages and waiters alike.
#![tactic(auto)]

ghost use Rattle.std.specs.Prelude.{◌≡◌, ℕ, true, ◌<◌, [], length, get_or, set, unwrap_or};
ghost use Rattle.ranks.specs.Lists.{map_with_index, found_below};
ghost use Rattle.ranks.specs.Position.{Position, in_queue, stands_at};
ghost use Rattle.ranks.specs.Table.{records, position_in, put_position, moved, Shape};
ghost use Rattle.ranks.specs.Steps.{inserted, taken_out, Room, first_at};

// Where a record stands: its queue (slot + 1, 0 none) and its rank there.
#[derive(Clone, Copy, Debug, PartialEq, Eq)]
pub struct Position {
    pub queue: u8,
    pub rank: u8,
}

// Where the positions of a table stand: count records of stride bytes, each with its queue at place and its rank after it.
#[derive(Clone, Copy, Debug, PartialEq, Eq)]
pub struct Positions {
    pub stride: usize,
    pub place: usize,
    pub count: usize,
}

impl Positions {
    // The position of record i.
    #[tactic(auto, using(crate::proofs::Table::position_read))]
    fn read(self, t: &[u8], i: usize) -> Position
        requires { Shape self.stride self.place self.count (length t.now) × (i < self.count) }
        ensures { result ≡ position_in self.place (get_or (records self.count self.stride t.now) i []) }
    {
        let at = i * self.stride + self.place;
        Position {
            queue: t[at],
            rank: t[at + 1],
        }
    }

    // Record i stands at another position.
    #[tactic(auto, using(crate::proofs::Table::position_written))]
    fn write(self, t: &mut [u8], i: usize, p: Position)
        requires { Shape self.stride self.place self.count (length t.old) × (i < self.count) }
        ensures { records self.count self.stride t.new
            ≡ set (records self.count self.stride t.old) i (put_position self.place p (get_or (records self.count self.stride t.old) i [])) }
    {
        let at = i * self.stride + self.place;
        t[at] = p.queue;
        t[at + 1] = p.rank;
    }
}

// The other position of record j after record i was taken out from the rank, if it has one: most are neither i nor in the queue.
#[tactic(auto, unfolding(crate::specs::Steps::taken_out))]
fn after_take_out(i: usize, slot: u8, rank: u8, j: usize, p: Position) -> Option<Position>
    requires { slot < 255 }
    ensures { unwrap_or result p ≡ taken_out i slot rank j p }
{
    if (j != i) & (p.queue != slot + 1) {
        return None;
    }
    if j == i {
        return Some(Position { queue: 0, rank: 0 });
    }
    if rank < p.rank {
        return Some(Position {
            queue: slot + 1,
            rank: p.rank - 1,
        });
    }
    None
}

// The other position of record j after record i was put in at the rank, if it has one: most are neither i nor in the queue.
#[tactic(auto, unfolding(crate::specs::Steps::inserted))]
fn after_insert(i: usize, slot: u8, rank: u8, j: usize, p: Position) -> Option<Position>
    requires { (slot < 255) × (in_queue slot p ≡ true → p.rank < 255) }
    ensures { unwrap_or result p ≡ inserted i slot rank j p }
{
    if (j != i) & (p.queue != slot + 1) {
        return None;
    }
    if j == i {
        return Some(Position {
            queue: slot + 1,
            rank,
        });
    }
    if rank <= p.rank {
        return Some(Position {
            queue: slot + 1,
            rank: p.rank + 1,
        });
    }
    None
}

// Each record gets the position that the step makes of its number and its position, if it makes one. No other is written.
fn shift<F: Fn(usize, Position) -> Option<Position>>(t: &mut [u8], positions: Positions, step: F)
    requires shape { Shape positions.stride positions.place positions.count (length t.old) }
    requires callable { (j : ℕ) → j < positions.count → F.pre step j (position_in positions.place (get_or (records positions.count positions.stride t.old) j [])) }
    ensures { (j : ℕ) → j < positions.count
        → (other : _) × F.post step j (position_in positions.place (get_or (records positions.count positions.stride t.old) j [])) other
        × (get_or (records positions.count positions.stride t.new) j []
        ≡ put_position positions.place (unwrap_or other (position_in positions.place (get_or (records positions.count positions.stride t.old) j [])))
        (get_or (records positions.count positions.stride t.old) j [])) }
{
    for j in 0..positions.count {
        let p = positions.read(t, j);
        if let Some(other) = step(j, p) {
            positions.write(t, j, other);
        }
    }
}

// Record i is taken out from this rank of the queue: those behind it move up by one.
pub fn take_out(t: &mut [u8], positions: Positions, i: usize, slot: u8, rank: u8)
    requires { Shape positions.stride positions.place positions.count (length t.old) × (slot < 255) }
    ensures { records positions.count positions.stride t.new
        ≡ map_with_index (moved positions.place (taken_out i slot rank)) (records positions.count positions.stride t.old) }
{
    shift(t, positions, |j, p| after_take_out(i, slot, rank, j, p));
}

// Record i is put in at this rank of the queue: those at it or behind it move back by one. Answers the rank.
pub fn insert(t: &mut [u8], positions: Positions, i: usize, slot: u8, rank: u8) -> u8
    requires { Shape positions.stride positions.place positions.count (length t.old)
        × ((slot < 255) × Room positions.place slot (records positions.count positions.stride t.old)) }
    ensures { (records positions.count positions.stride t.new
        ≡ map_with_index (moved positions.place (inserted i slot rank)) (records positions.count positions.stride t.old))
        × (result ≡ rank) }
{
    shift(t, positions, |j, p| after_insert(i, slot, rank, j, p));
    rank
}

fn is_first(p: Position, slot: u8) -> bool
    requires { slot < 255 }
    ensures { result ≡ stands_at slot 0 p }
{
    (p.queue == slot + 1) & (p.rank == 0)
}

// The record at rank 0 of the queue, if there is one.
pub fn first(t: &[u8], positions: Positions, slot: u8) -> Option<usize>
    requires { Shape positions.stride positions.place positions.count (length t.now) × (slot < 255) }
    ensures { result ≡ found_below positions.count (first_at positions.place slot (records positions.count positions.stride t.now)) }
{
    (0..positions.count).find(|i| is_first(positions.read(t, *i), slot))
}
