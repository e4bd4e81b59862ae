// The answer buffer, and the status of a function without one.
ghost use Rattle.std.specs.Prelude.{◌≡◌, ◌≢◌, length};
ghost use Rattle.records.specs.Status.{BAD-SHAPE};
ghost use Rattle.manager.specs.Outcomes.{answer_of};
ghost use Rattle.calllog.specs.CallLog.{answer_width};
ghost use Rattle.logged_calls.specs.LoggedCall.{answer_record};
ghost use Rattle.message_manager.specs.Interface.{done_status};

use logged_calls::answer::answer_record;
use manager::answer::Answer;
use records::status::{BAD_SHAPE, SUCCESSFUL};

// Makes a call, writes its answer record with this first byte, and returns its status. A buffer of another length than 16 bytes gets 16,
// and the call is not made.
pub fn answered<F: FnMut() -> Answer>(buffer: &mut [u8], first_byte: u8, call: &mut F) -> u32
    requires { F.pre call.old }
    ensures made { length buffer.old ≡ answer_width → (a : _) × (F.step call.old a call.new × ((buffer.new ≡ answer_record (answer_of a) first_byte) × (result ≡ (answer_of a).status))) }
    ensures not_made { length buffer.old ≢ answer_width → (call.new ≡ call.old) × ((buffer.new ≡ buffer.old) × (result ≡ BAD-SHAPE)) }
{
    let Some(record) = buffer.as_mut_array() else {
        return u32::from(BAD_SHAPE);
    };
    *record = answer_record(call(), first_byte);
    u32::from(record[0])
}

// 0 for what was done, 16 where nothing was.
pub fn done_status(done: bool) -> u32
    ensures { result ≡ done_status done }
{
    u32::from(if done { SUCCESSFUL } else { BAD_SHAPE })
}
