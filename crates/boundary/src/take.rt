// The take.
ghost use Rattle.rules.specs.Calls.{take_call};
ghost use Rattle.boundary.specs.Boundary.{lent, ExportsFilling};

use crate::slices::{SIZES, finish, lent_ok, load};

// A take from the list with that number, into a notice room.
#[tactic(auto, using(crate::proofs::Ending::refuses, crate::proofs::Ending::sized, crate::proofs::Ending::writable))]
pub fn valmthosh_take(
    saved: &mut [u32],
    send: &[u32],
    receive: &mut [u32],
    bytes: &[u8],
    notices: &mut [u32],
    list: u32,
    room: &mut [u32],
    answer: &mut [u32],
) -> u32
    ensures { ExportsFilling (λ m room. take_call m list room) result
        (lent saved.old send.now receive.old bytes.now notices.old room.old answer.old)
        (lent saved.new send.now receive.new bytes.now notices.new room.new answer.new) }
{
    if !lent_ok(saved.len(), answer.len()) {
        return SIZES;
    }
    let s = load(saved);
    let a = engine::take(s, send, receive, bytes, notices, list, room);
    finish(saved, answer, a)
}
