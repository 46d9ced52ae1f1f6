// The calls on a machine: the saved state by value, the memories lent. Each takes any input, and gives what document 01 says, in full.
// Each memory is a parameter of its own: that a call takes it for reading alone is promised by its type.
#![tactic(auto)]

mod reading;
mod receiving;
mod refusing;
mod sending;
mod taking;
mod writing;

pub use reading::read;
pub use receiving::receive;
pub use refusing::unknown;
pub use sending::send;
pub use taking::take;
pub use writing::write;
