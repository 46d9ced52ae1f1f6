// The call of no known kind.
ghost use Rattle.std.specs.Prelude.{[]};
ghost use Rattle.rules.specs.Calls.{unknown_call};
ghost use Rattle.boundary.specs.Boundary.{lent, Exports};

use crate::slices::{SIZES, finish, lent_ok, load};

// An unknown call. C has none, since it names one of the five.
#[tactic(auto, using(crate::proofs::Ending::refuses, crate::proofs::Ending::sized, crate::proofs::Ending::writable))]
pub fn unknown_call(
    saved: &mut [u32],
    send: &[u32],
    receive: &[u32],
    bytes: &[u8],
    notices: &[u32],
    answer: &mut [u32],
) -> u32
    ensures { Exports unknown_call result
        (lent saved.old send.now receive.now bytes.now notices.now [] answer.old)
        (lent saved.new send.now receive.now bytes.now notices.now [] answer.new) }
{
    if !lent_ok(saved.len(), answer.len()) {
        return SIZES;
    }
    let s = load(saved);
    let a = engine::unknown(s, send, receive, bytes, notices);
    finish(saved, answer, a)
}
