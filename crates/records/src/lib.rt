// The station's records: 192 bytes to a call of the engine, and a line for each.
#![tactic(auto)]

mod calling;
mod machine;
mod opening;
mod running;

pub use machine::Lent;
pub use opening::open;
pub use running::{in_parts, run};
