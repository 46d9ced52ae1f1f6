// The calls over plain slices and numbers, the saved state in 15 lent words, the answer in 3 (reply number, value, interrupts). The crate
// boundary_c exports them for C and Rust.
// A saved slice of another length, or an answer of fewer words, is answered 13 (sizes), and nothing is written.
// The six stay six functions of four lines, and each memory a parameter of its own: docs/PROMISES.md names them, and C calls five by boundary_c.
#![tactic(auto)]

mod read;
mod receive;
mod send;
mod slices;
mod take;
mod unknown;
mod write;

pub use read::valmthosh_read;
pub use receive::valmthosh_receive;
pub use send::valmthosh_send;
pub use slices::{ANSWER_WORDS, SAVED_WORDS, load, store};
pub use take::valmthosh_take;
pub use unknown::unknown_call;
pub use write::valmthosh_write;
