// Queue records: read into a value, changed there and written back.
ghost use Rattle.std.specs.Prelude.{◌≡◌, ◌<◌, length};
ghost use Rattle.records.specs.Layout.{slot_count, queue_width, queues_size};
ghost use Rattle.records.specs.Records.{is_live, has_priority, is_open, attributes_allowed, limit_allowed, max_size_allowed, size_allowed, is_full};
ghost use Rattle.records.specs.Bytes.{decode_queue, encode_queue, decode_queues, decode_queue_at};
ghost use Rattle.records.specs.Changes.{change_at, with_pending, with_waiters, with_generation, live_with, freed};

use crate::layout::{CAPACITY, LARGEST_LIMIT, QUEUE_WIDTH};
use octets::copy::copy_into;
use octets::numbers::{bytes_at, bytes_of_u16, bytes_of_u32, read_u16, read_u32};

// A queue record, field by field.
#[derive(Clone, Copy, Debug, Default, PartialEq, Eq)]
pub struct QueueRecord {
    pub live: u8,
    pub attributes: u8,
    pub limit: u8,
    pub max_size: u8,
    pub generation: u16,
    pub pending: u8,
    pub waiters: u8,
    pub name: u32,
    pub reserved: [u8; 4],
}

impl QueueRecord {
    pub fn is_live(self) -> bool
        ensures { result ≡ is_live self }
    {
        self.live == 1
    }

    pub fn has_priority(self) -> bool
        ensures { result ≡ has_priority self }
    {
        self.attributes % 2 == 1
    }

    pub fn is_open(self) -> bool
        ensures { result ≡ is_open self }
    {
        self.attributes / 2 % 2 == 1
    }

    // A message of the queue may have this size: 0 to the max size.
    #[tactic(auto, unfolding(crate::specs::Records::size_allowed))]
    pub fn size_allowed(self, size: usize) -> bool
        ensures { result ≡ size_allowed self size }
    {
        size <= usize::from(self.max_size)
    }

    pub fn is_full(self) -> bool
        ensures { result ≡ is_full self }
    {
        self.limit <= self.pending
    }

    pub fn with_pending(self, n: u8) -> Self
        ensures { result ≡ with_pending n self }
    {
        Self { pending: n, ..self }
    }

    pub fn with_waiters(self, n: u8) -> Self
        ensures { result ≡ with_waiters n self }
    {
        Self { waiters: n, ..self }
    }

    pub fn with_generation(self, n: u16) -> Self
        ensures { result ≡ with_generation n self }
    {
        Self {
            generation: n,
            ..self
        }
    }

    // A live queue with no message and no waiter, and the record's generation.
    pub fn live_with(self, name: u32, limit: u8, max_size: u8, attributes: u8) -> Self
        ensures { result ≡ live_with name limit max_size attributes self }
    {
        Self {
            live: 1,
            attributes,
            limit,
            max_size,
            name,
            ..self.freed()
        }
    }

    // "the record is zeroed but for its generation"
    pub fn freed(self) -> Self
        ensures { result ≡ freed self }
    {
        Self {
            generation: self.generation,
            ..Self::default()
        }
    }
}

// "attributes 0 to 3, limit 1 to 16, max size 1 to 120"
pub fn attributes_allowed(n: u32) -> bool
    ensures { result ≡ attributes_allowed n }
{
    n <= 3
}

#[tactic(auto, unfolding(ranks::specs::Lists::within))]
pub fn limit_allowed(n: u32) -> bool
    ensures { result ≡ limit_allowed n }
{
    (1..=LARGEST_LIMIT).contains(&(n as usize))
}

#[tactic(auto, unfolding(ranks::specs::Lists::within))]
pub fn max_size_allowed(n: u32) -> bool
    ensures { result ≡ max_size_allowed n }
{
    (1..=CAPACITY).contains(&(n as usize))
}

#[tactic(auto, unfolding(crate::specs::Bytes::decode_queue))]
fn decode_queue(r: &[u8]) -> QueueRecord
    requires { length r.now ≡ queue_width }
    ensures { result ≡ decode_queue r.now }
{
    QueueRecord {
        live: r[0],
        attributes: r[1],
        limit: r[2],
        max_size: r[3],
        generation: read_u16(r, 4),
        pending: r[6],
        waiters: r[7],
        name: read_u32(r, 8),
        reserved: bytes_at(r, 12),
    }
}

#[tactic(auto, unfolding(ranks::specs::Table::slice))]
pub fn read_queue(queues: &[u8], slot: usize) -> QueueRecord
    requires { (slot < slot_count) × (length queues.now ≡ queues_size) }
    ensures { result ≡ decode_queue_at slot queues.now }
{
    let from = slot * QUEUE_WIDTH;
    decode_queue(&queues[from..from + QUEUE_WIDTH])
}

fn encode_queue(q: QueueRecord) -> [u8; QUEUE_WIDTH]
    ensures { (result ≡ encode_queue q) × ((decode_queue (encode_queue q) ≡ q) × (length (encode_queue q) ≡ queue_width)) }
{
    let [g0, g1] = bytes_of_u16(q.generation);
    let [n0, n1, n2, n3] = bytes_of_u32(q.name);
    let [r0, r1, r2, r3] = q.reserved;
    [
        q.live,
        q.attributes,
        q.limit,
        q.max_size,
        g0,
        g1,
        q.pending,
        q.waiters,
        n0,
        n1,
        n2,
        n3,
        r0,
        r1,
        r2,
        r3,
    ]
}

pub fn write_queue(queues: &mut [u8], slot: usize, q: QueueRecord)
    requires { (slot < slot_count) × (length queues.old ≡ queues_size) }
    ensures { decode_queues queues.new ≡ change_at slot (λ _. q) (decode_queues queues.old) }
{
    copy_into(queues, slot * QUEUE_WIDTH, &encode_queue(q));
}
