// The send: which descriptor sends, its packet, and what that leaves.
#![tactic(auto)]

mod acting;
mod choosing;
mod forming;
mod judging;
mod moving;

pub use acting::act_send;
pub use judging::judge_send;
