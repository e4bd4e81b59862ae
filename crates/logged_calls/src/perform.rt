// A log's directive on the tables.
ghost use Rattle.std.specs.Prelude.{◌≡◌, take};
ghost use Rattle.records.specs.Bytes.{tables};
ghost use Rattle.common_refusals.specs.Tested.{Callable};
ghost use Rattle.manager.specs.Outcomes.{outcome_of, accepted};
ghost use Rattle.logged_calls.specs.LoggedCall.{directive_of};

use calllog::call::Directive;
use manager::answer::Answer;
use manager::msgqbroadcast::broadcast;
use manager::msgqcreate::create;
use manager::msgqdelete::delete;
use manager::msgqflush::flush;
use manager::msgqgetnumberpending::get_number_pending;
use manager::msgqident::ident;
use manager::msgqreceive::receive;
use manager::msgqsend::send;
use manager::msgqurgent::urgent;

// The first n bytes of a message field, or all of it.
fn front_of(field: &[u8], n: u8) -> &[u8]
    ensures { result.now ≡ take n field.now }
{
    field.get(..usize::from(n)).unwrap_or(field)
}

// The directive, on sound tables and for a caller that may call.
#[tactic(auto, unfolding(crate::specs::LoggedCall::directive_of))]
pub fn perform(
    queues: &mut [u8],
    pool: &mut [u8],
    tasks: &mut [u8],
    caller: usize,
    directive: Directive,
    field: &[u8],
) -> Answer
    requires { Callable (tables queues.old pool.old tasks.old) caller }
    ensures { outcome_of result (tables queues.new pool.new tasks.new)
        ≡ accepted (tables queues.old pool.old tasks.old) caller (directive_of directive field.now) }
{
    match directive {
        Directive::Create {
            name,
            limit,
            max_size,
            attributes,
        } => create(
            queues,
            pool,
            tasks,
            caller,
            name,
            u32::from(limit),
            u32::from(max_size),
            u32::from(attributes),
        ),
        Directive::Ident { name, share } => ident(queues, pool, tasks, caller, name, share),
        Directive::Delete { id } => delete(queues, pool, tasks, caller, id),
        Directive::Send { id, size } => {
            send(queues, pool, tasks, caller, id, front_of(field, size))
        }
        Directive::Urgent { id, size } => {
            urgent(queues, pool, tasks, caller, id, front_of(field, size))
        }
        Directive::Broadcast { id, size } => {
            broadcast(queues, pool, tasks, caller, id, front_of(field, size))
        }
        Directive::Receive { id, option, ticks } => {
            receive(queues, pool, tasks, caller, id, u32::from(option), ticks)
        }
        Directive::Pending { id } => get_number_pending(queues, pool, tasks, caller, id),
        Directive::Flush { id } => flush(queues, pool, tasks, caller, id),
    }
}
