// The ranks of messages and of waiters.
ghost use Rattle.std.specs.Prelude.{◌≡◌, true, ℕ, ◌+◌, ◌<◌, length};
ghost use Rattle.ranks.specs.Lists.{every};
ghost use Rattle.ranks.specs.Position.{stands_at};
ghost use Rattle.ranks.specs.Table.{position_in, Shape};
ghost use Rattle.octets.specs.LittleEndian.{byte_values};
ghost use Rattle.records.specs.Layout.{slot_count, queues_size};
ghost use Rattle.records.specs.Bytes.{decode_queues};
ghost use Rattle.soundness.specs.Parts.{positions_in, held, below_count, part_start, part_size, AmongPart, queue_ranked};

use ranks::Positions;
use records::layout::SLOT_COUNT;
use records::queue::{QueueRecord, read_queue};
use records::shares::{first_buffer, share_limit, share_of_slot};

// What a queue has by rank: its messages, or the tasks that wait in it.
#[derive(Clone, Copy, Debug, PartialEq, Eq)]
pub enum Members {
    Messages,
    Waiters,
}

impl Members {
    // How many of them the queue has.
    fn held(self, q: QueueRecord) -> u8
        ensures { result ≡ held self q }
    {
        match self {
            Members::Messages => q.pending,
            Members::Waiters => q.waiters,
        }
    }

    // The first record that can be in the queue of the slot: the first buffer of its share, or the first task.
    fn part_start(self, slot: usize) -> usize
        requires { slot < slot_count }
        ensures { result ≡ part_start self slot }
    {
        match self {
            Members::Messages => first_buffer(share_of_slot(slot)),
            Members::Waiters => 0,
        }
    }

    // How many records from there on can be in the queue: the buffers of its share, or all of the count.
    fn part_size(self, slot: usize, count: usize) -> usize
        requires { slot < slot_count }
        ensures { result ≡ part_size self count slot }
    {
        match self {
            Members::Messages => share_limit(share_of_slot(slot)),
            Members::Waiters => count,
        }
    }
}

// The record whose position is at this place stands at the rank of the queue in the slot. Queue and rank are compared as one number.
fn stands_at(t: &[u8], at: usize, slot: usize, rank: u8) -> bool
    requires { (at + 1 < length t.now) × (slot < slot_count) }
    ensures { result ≡ stands_at slot rank (position_in at t.now) }
{
    u16::from_le_bytes([t[at], t[at + 1]]) == u16::from_le_bytes([slot as u8 + 1, rank])
}

// For each live queue, its messages or waiters carry the ranks below their count, each exactly once: queue by queue, rank by rank, over the
// records that can be in the queue. No record has a rank at its queue's count or above, so that a queue that holds nothing has no record.
// The innermost loop counts the records at the rank, so that it has no branch. The labels of the two inner loops are their names in the proof.
// Each call has a copy of its own, in which the positions and the members are constants.
#[inline(always)]
pub fn every_ranked(queues: &[u8], t: &[u8], positions: Positions, members: Members) -> bool
    requires { (length queues.now ≡ queues_size) × (Shape positions.stride positions.place positions.count (length t.now) × ((positions.count < byte_values)
        × ((every (λ j p. below_count members (decode_queues queues.now) p) (positions_in positions t.now) ≡ true)
        × ((slot : ℕ) → slot < slot_count → AmongPart members positions.count slot (positions_in positions t.now))))) }
    ensures { result ≡ every (queue_ranked members (positions_in positions t.now)) (decode_queues queues.now) }
{
    let mut good = true;
    'search: for slot in 0..SLOT_COUNT {
        let q = read_queue(queues, slot);
        let n = members.held(q);
        if q.is_live() & (n != 0) {
            let from = members.part_start(slot);
            let size = members.part_size(slot, positions.count);
            'ranks: for rank in 0..n {
                let mut found: u16 = 0;
                'records: for j in 0..size {
                    let place = (from + j) * positions.stride + positions.place;
                    found += u16::from(stands_at(t, place, slot, rank));
                }
                if found != 1 {
                    good = false;
                    break 'search;
                }
            }
        }
    }
    good
}
