// Notices: their blocks, postings with their interrupts, and the take.
#![tactic(auto)]

mod blocks;
mod posting;
mod taking;

pub use blocks::{next_of, push_nbqr};
pub use posting::{can_post_all, post_all, push_aqr};
use rules::Saved;
pub use taking::{act_take, judge_take};

// The saved state after a step, and the interrupts that the step raised, summed.
#[derive(Clone, Copy)]
pub struct Step {
    pub saved: Saved,
    pub interrupts: u32,
}
