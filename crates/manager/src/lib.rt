// The message queue manager: nine directives and the clock tick, over three lent tables.
#![tactic(auto, using(crate::proofs::Directives::directives), unfolding(specification::specs::Answer::first_status, ranks::specs::Lists::found_below))]

pub mod answer; // answer.rt: what a call answers
pub mod clocktick; // clocktick.rt: the clock tick
pub mod msgqbroadcast; // msgqbroadcast.rt: broadcast
pub mod msgqcreate; // msgqcreate.rt: create
pub mod msgqdelete; // msgqdelete.rt: delete
pub mod msgqflush; // msgqflush.rt: flush
pub mod msgqgetnumberpending; // msgqgetnumberpending.rt: get number pending
pub mod msgqident; // msgqident.rt: ident
pub mod msgqreceive; // msgqreceive.rt: receive
pub mod msgqsend; // msgqsend.rt: send
pub mod msgqsubmit; // msgqsubmit.rt: what send and urgent share
pub mod msgqurgent; // msgqurgent.rt: urgent
