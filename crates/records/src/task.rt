// Task records.
ghost use Rattle.std.specs.Prelude.{◌≡◌, ◌<◌, ◌≤◌, eqb, length};
ghost use Rattle.records.specs.Layout.{capacity, task_count, task_width, tasks_size};
ghost use Rattle.records.specs.Bytes.{decode_task, decode_tasks, decode_task_at};
ghost use Rattle.records.specs.Records.{waiting_state, fresh_task};
ghost use Rattle.records.specs.Changes.{change_at, with_message};
ghost use Rattle.records.specs.TaskHeads.{head_of, with_head, ready_head, message_head, waiting_head, ticked_head};

use crate::layout::{TASK_DATA, TASK_LENGTH, TASK_POSITION, TASK_WIDTH};
use crate::status::{SUCCESSFUL, WAITING};
use octets::copy::copy_into;
use octets::numbers::{bytes_at, bytes_of_u32, read_u32};
use ranks::Position;

pub const READY_STATE: u8 = 0;

pub const WAITING_STATE: u8 = 1;

// What stands before a task's receive buffer, but for its zero bytes 12 to 15.
#[derive(Clone, Copy, Debug, PartialEq, Eq)]
pub struct TaskHead {
    pub state: u8,
    pub queue: u8,
    pub rank: u8,
    pub priority: u8,
    pub status: u8,
    pub message_length: u8,
    pub reserved: [u8; 2],
    pub ticks_left: u32,
}

impl TaskHead {
    pub fn is_waiting(self) -> bool
        ensures { result ≡ eqb self.state waiting_state }
    {
        self.state == WAITING_STATE
    }

    // The task is ready and in no queue. "Leaving a queue zeroes queue, rank and ticks."
    pub fn ready_with(self, status: u8) -> Self
        ensures { result ≡ ready_head status self }
    {
        Self {
            state: READY_STATE,
            queue: 0,
            rank: 0,
            status,
            ticks_left: 0,
            ..self
        }
    }

    // The task waits at this position: "status 14, length 0, ticks left as given".
    pub fn waiting_at(self, position: Position, ticks: u32) -> Self
        ensures { result ≡ waiting_head position.queue position.rank ticks self }
    {
        Self {
            state: WAITING_STATE,
            queue: position.queue,
            rank: position.rank,
            status: WAITING,
            message_length: 0,
            ticks_left: ticks,
            ..self
        }
    }

    // The task is ready and has a message of this length: "status 0, length set".
    pub fn ready_with_message(self, n: u8) -> Self
        ensures { result ≡ message_head n self }
    {
        Self {
            message_length: n,
            ..self.ready_with(SUCCESSFUL)
        }
    }

    pub fn with_ticks(self, n: u32) -> Self
        ensures { result ≡ ticked_head n self }
    {
        Self {
            ticks_left: n,
            ..self
        }
    }
}

#[tactic(auto, unfolding(crate::specs::Bytes::decode_task))]
fn decode_head(r: &[u8]) -> TaskHead
    requires { length r.now ≡ task_width }
    ensures { result ≡ head_of (decode_task r.now) }
{
    TaskHead {
        state: r[0],
        queue: r[TASK_POSITION],
        rank: r[TASK_POSITION + 1],
        priority: r[3],
        status: r[4],
        message_length: r[TASK_LENGTH],
        reserved: bytes_at(r, 6),
        ticks_left: read_u32(r, 8),
    }
}

#[tactic(auto, unfolding(ranks::specs::Table::slice))]
pub fn read_head(tasks: &[u8], t: usize) -> TaskHead
    requires { (t < task_count) × (length tasks.now ≡ tasks_size) }
    ensures { result ≡ head_of (decode_task_at t tasks.now) }
{
    let from = t * TASK_WIDTH;
    decode_head(&tasks[from..from + TASK_WIDTH])
}

fn encode_head(r: &mut [u8], h: TaskHead)
    requires { length r.old ≡ task_width }
    ensures { decode_task r.new ≡ with_head h (decode_task r.old) }
{
    let [z0, z1] = h.reserved;
    let [n0, n1, n2, n3] = bytes_of_u32(h.ticks_left);
    let b = [
        h.state,
        h.queue,
        h.rank,
        h.priority,
        h.status,
        h.message_length,
        z0,
        z1,
        n0,
        n1,
        n2,
        n3,
    ];
    copy_into(r, 0, &b);
}

pub fn write_head(tasks: &mut [u8], t: usize, h: TaskHead)
    requires { (t < task_count) × (length tasks.old ≡ tasks_size) }
    ensures { decode_tasks tasks.new ≡ change_at t (with_head h) (decode_tasks tasks.old) }
{
    let from = t * TASK_WIDTH;
    encode_head(&mut tasks[from..from + TASK_WIDTH], h);
}

// The message goes into a task's record, which is then ready and in no queue.
fn deliver_to(r: &mut [u8], message: &[u8])
    requires { (length r.old ≡ task_width) × (length message.now ≤ capacity) }
    ensures { decode_task r.new ≡ with_message message.now (decode_task r.old) }
{
    let h = decode_head(r).ready_with_message(message.len() as u8);
    copy_into(r, TASK_DATA, message);
    encode_head(r, h);
}

// The message goes to task t.
pub fn deliver(tasks: &mut [u8], t: usize, message: &[u8])
    requires { (length tasks.old ≡ tasks_size) × ((t < task_count) × (length message.now ≤ capacity)) }
    ensures { decode_tasks tasks.new ≡ change_at t (with_message message.now) (decode_tasks tasks.old) }
{
    let from = t * TASK_WIDTH;
    deliver_to(&mut tasks[from..from + TASK_WIDTH], message);
}

// Task t is ready with this priority, and the rest of its record is zero.
pub fn write_fresh_task(tasks: &mut [u8], t: usize, priority: u8)
    requires { (length tasks.old ≡ tasks_size) × (t < task_count) }
    ensures { decode_tasks tasks.new ≡ change_at t (λ _. fresh_task priority) (decode_tasks tasks.old) }
{
    let from = t * TASK_WIDTH;
    let r = &mut tasks[from..from + TASK_WIDTH];
    r.fill(0);
    r[3] = priority;
}
