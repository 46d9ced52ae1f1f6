// Registers: the map of their numbers, the word a read shows, and what a write stores.
#![tactic(auto)]

mod acting;
mod judging;
mod map;
mod parts;
mod reading;
mod reset;
mod storing;

pub use acting::act_write;
pub use judging::judge_write;
pub use map::decode;
pub use reading::{act_read, judge_read};
