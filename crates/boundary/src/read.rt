// The read.
ghost use Rattle.std.specs.Prelude.{[]};
ghost use Rattle.rules.specs.Calls.{read_call};
ghost use Rattle.boundary.specs.Boundary.{lent, Exports};

use crate::slices::{SIZES, finish, lent_ok, load};

// A read of the register with that number.
#[tactic(auto, using(crate::proofs::Ending::refuses, crate::proofs::Ending::sized, crate::proofs::Ending::writable))]
pub fn valmthosh_read(
    saved: &mut [u32],
    send: &[u32],
    receive: &[u32],
    bytes: &[u8],
    notices: &[u32],
    register: u32,
    answer: &mut [u32],
) -> u32
    ensures { Exports (λ m. read_call m register) result
        (lent saved.old send.now receive.now bytes.now notices.now [] answer.old)
        (lent saved.new send.now receive.now bytes.now notices.now [] answer.new) }
{
    if !lent_ok(saved.len(), answer.len()) {
        return SIZES;
    }
    let s = load(saved);
    let a = engine::read(s, send, receive, bytes, notices, register);
    finish(saved, answer, a)
}
