// The send.
ghost use Rattle.std.specs.Prelude.{eqb};
ghost use Rattle.rules.specs.Calls.{send_call};
ghost use Rattle.boundary.specs.Boundary.{lent, ExportsFilling};

use crate::slices::{SIZES, finish, lent_ok, load};

// A send into a packet room, with the fabric ready (1) or not (anything else).
#[tactic(auto, using(crate::proofs::Ending::refuses, crate::proofs::Ending::sized, crate::proofs::Ending::writable))]
pub fn valmthosh_send(
    saved: &mut [u32],
    send: &mut [u32],
    receive: &mut [u32],
    bytes: &[u8],
    notices: &mut [u32],
    ready: u32,
    room: &mut [u8],
    answer: &mut [u32],
) -> u32
    ensures { ExportsFilling (λ m room. send_call m (eqb ready 1) room) result
        (lent saved.old send.old receive.old bytes.now notices.old room.old answer.old)
        (lent saved.new send.new receive.new bytes.now notices.new room.new answer.new) }
{
    if !lent_ok(saved.len(), answer.len()) {
        return SIZES;
    }
    let s = load(saved);
    let a = engine::send(s, send, receive, bytes, notices, ready == 1, room);
    finish(saved, answer, a)
}
