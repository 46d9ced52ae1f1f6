// The receive.
ghost use Rattle.std.specs.Prelude.{[]};
ghost use Rattle.rules.specs.Calls.{receive_call};
ghost use Rattle.boundary.specs.Boundary.{lent, Exports};

use crate::slices::{SIZES, finish, lent_ok, load};

// A receipt of a packet.
#[tactic(auto, using(crate::proofs::Ending::refuses, crate::proofs::Ending::sized, crate::proofs::Ending::writable))]
pub fn valmthosh_receive(
    saved: &mut [u32],
    send: &[u32],
    receive: &mut [u32],
    bytes: &mut [u8],
    notices: &mut [u32],
    packet: &[u8],
    answer: &mut [u32],
) -> u32
    ensures { Exports (λ m. receive_call m packet.now) result
        (lent saved.old send.now receive.old bytes.old notices.old [] answer.old)
        (lent saved.new send.now receive.new bytes.new notices.new [] answer.new) }
{
    if !lent_ok(saved.len(), answer.len()) {
        return SIZES;
    }
    let s = load(saved);
    let a = engine::receive(s, send, receive, bytes, notices, packet);
    finish(saved, answer, a)
}
