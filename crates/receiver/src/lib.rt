// "Receipt, first failure decides": a packet judged by the table of steps, and what a receipt changes.
#![tactic(auto)]

mod acting;
mod choice;
mod first_failure;
mod judging;
mod landing;
mod meeting;
mod posting;
mod slots;
mod togo;

pub use acting::act_receive;
pub use judging::judge_receive;
