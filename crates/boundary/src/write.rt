// The write.
ghost use Rattle.std.specs.Prelude.{[]};
ghost use Rattle.rules.specs.Calls.{write_call};
ghost use Rattle.boundary.specs.Boundary.{lent, Exports};

use crate::slices::{SIZES, finish, lent_ok, load};

// A write of a value to the register with that number.
#[tactic(auto, using(crate::proofs::Ending::refuses, crate::proofs::Ending::sized, crate::proofs::Ending::writable))]
pub fn valmthosh_write(
    saved: &mut [u32],
    send: &mut [u32],
    receive: &mut [u32],
    bytes: &[u8],
    notices: &mut [u32],
    register: u32,
    value: u32,
    answer: &mut [u32],
) -> u32
    ensures { Exports (λ m. write_call m register value) result
        (lent saved.old send.old receive.old bytes.now notices.old [] answer.old)
        (lent saved.new send.new receive.new bytes.now notices.new [] answer.new) }
{
    if !lent_ok(saved.len(), answer.len()) {
        return SIZES;
    }
    let s = load(saved);
    let a = engine::write(s, send, receive, bytes, notices, register, value);
    finish(saved, answer, a)
}
