// What a send does, or why it is refused.
ghost use Rattle.std.specs.Prelude.{◌≡◌};
ghost use Rattle.rules.specs.Calls.{sending_of, judge_send};
ghost use Rattle.laws.specs.Lent.{seen};

use crate::choosing;
use rules::sizes::PACKET_MOST;
use rules::{DescriptorIndex, Refusal, Seen, Sending};

// stalled where none is ready; else fabric decides between sending and waiting.
#[tactic(auto, using(ground::proofs::Choice::branches), unfolding(rules::specs::Calls::sending_of))]
fn sending_of(ready: bool, found: Option<DescriptorIndex>) -> Result<Sending, Refusal>
    ensures { result ≡ sending_of ready found }
{
    let d = found.ok_or(Refusal::Stalled)?;
    if ready {
        Ok(Sending::Sends(d))
    } else {
        Ok(Sending::Waits(d))
    }
}

// What a send does with the fabric ready or not and a room of so many bytes, by the table's rows in their order.
#[tactic(auto, using(sound::proofs::Passing::gated_go, ground::proofs::Choice::judging, crate::proofs::Facts::active_asks, crate::proofs::Facts::choose_asks), unfolding(rules::specs::Calls::judge_send))]
pub fn judge_send(m: &Seen<'_>, ready: bool, room: usize) -> Result<Sending, Refusal>
    ensures { result ≡ judge_send (seen m.now) ready room }
{
    sound::gate(m.saved, m.send, m.receive, m.bytes.len(), m.notices.len())?;
    let enable = m.saved.pcsr0 / 0x4000_0000 % 2 == 1;
    if !enable {
        return Err(Refusal::Off);
    }
    if room < PACKET_MOST {
        return Err(Refusal::Short);
    }
    if choosing::none_active(m.send) {
        return Err(Refusal::Quiet);
    }
    sending_of(ready, choosing::next_sender(m))
}
