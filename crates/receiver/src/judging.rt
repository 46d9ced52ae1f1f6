// What a receive does: what its packet comes to, or why it is refused.
ghost use Rattle.std.specs.Prelude.{◌≡◌};
ghost use Rattle.rules.specs.Receipt.{has_room_for};
ghost use Rattle.rules.specs.Calls.{judge_receive};
ghost use Rattle.laws.specs.Lent.{seen};
ghost use Rattle.receiver.specs.Judging.{Answerable};

use crate::{first_failure, posting};
use packet::read;
use rules::sizes::QUEUE_SIZE;
use rules::{Receiving, Refusal, Seen};

// Whether a receipt's notice can be posted and its AQR entry pushed; else stalled.
#[tactic(auto, using(crate::proofs::Rooms::post_asks, crate::proofs::Rooms::room))]
fn has_room_for(m: &Seen<'_>, x: Receiving) -> bool
    requires { Answerable m.now.receive.now x }
    ensures { result ≡ has_room_for m.now.saved m.now.receive.now x.packet x.receipt }
{
    let s = m.saved;
    let notice = posting::receipt_posting(x);
    let entry = posting::needs_aqr(x);
    notices::can_post_all(s, m.receive, notice) & (!entry | (s.aqr.length < QUEUE_SIZE))
}

// What a receive of a packet does, by the table's rows in their order.
#[tactic(auto, using(sound::proofs::Passing::gated_go, ground::proofs::Choice::judging, packet::proofs::Reading::sized), unfolding(rules::specs::Calls::judge_receive))]
pub fn judge_receive(m: &Seen<'_>, packet: &[u8]) -> Result<Receiving, Refusal>
    ensures { result ≡ judge_receive (seen m.now) packet.now }
{
    sound::gate(m.saved, m.send, m.receive, m.bytes.len(), m.notices.len())?;
    let enable = m.saved.pcsr0 / 0x4000_0000 % 2 == 1;
    if !enable {
        return Err(Refusal::Off);
    }
    if !read::is_packet(packet) {
        return Err(Refusal::NoPacket);
    }
    let p = read::fields(packet);
    let x = Receiving {
        packet: p,
        receipt: first_failure::receipt_of(m, packet, p),
    };
    if !has_room_for(m, x) {
        return Err(Refusal::Stalled);
    }
    Ok(x)
}
