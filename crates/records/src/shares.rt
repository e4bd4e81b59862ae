// Which share owns which slot, buffer and task.
ghost use Rattle.std.specs.Prelude.{◌≡◌, ◌<◌, eqb};
ghost use Rattle.records.specs.Layout.{slot_count, buffer_count, task_count};
ghost use Rattle.records.specs.Split.{share_of_slot, share_of_buffer, share_of_task, first_buffer, share_limit, share_count};

use crate::layout::{BUFFERS_PER_SHARE, SLOTS_PER_SHARE, TASKS_PER_SHARE};

// "Share p (0 to 3) owns slots 4p to 4p+3, buffers 16p to 16p+15, tasks 8p to 8p+7."
pub fn share_of_slot(slot: usize) -> usize
    requires { slot < slot_count }
    ensures { result ≡ share_of_slot slot }
{
    slot / SLOTS_PER_SHARE
}

pub fn share_of_task(task: usize) -> usize
    requires { task < task_count }
    ensures { result ≡ share_of_task task }
{
    task / TASKS_PER_SHARE
}

// The first buffer of the share.
pub fn first_buffer(share: usize) -> usize
    requires { share < share_count }
    ensures { result ≡ first_buffer share }
{
    share * BUFFERS_PER_SHARE
}

// How many buffers the share has, which bounds its limits.
pub fn share_limit(share: usize) -> usize
    requires { share < share_count }
    ensures { result ≡ share_limit share }
{
    BUFFERS_PER_SHARE
}

// The share owns the buffer.
pub fn owns_buffer(share: usize, b: usize) -> bool
    requires { b < buffer_count }
    ensures { result ≡ eqb share (share_of_buffer b) }
{
    share == b / BUFFERS_PER_SHARE
}
