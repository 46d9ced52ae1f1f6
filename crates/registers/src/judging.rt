// What a write does, or why it is refused, by the table's rows in their order. Every function here only reads.
ghost use Rattle.std.specs.Prelude.{◌≡◌};
ghost use Rattle.rules.specs.Writes.{judge_register};
ghost use Rattle.rules.specs.Calls.{judge_write};
ghost use Rattle.laws.specs.Lent.{seen};

use crate::parts::checked;
use crate::{map, parts};
use rules::sizes::{PCSR0_NUMBER, QUEUE_SIZE, RECEIVE_SIZE, SEND_SIZE, SLOTS_MOST};
use rules::{BlockAddress, Number, Reach, Refusal, Register, Saved, Seen, Writing};
use sound::{pcsr0_ok, pointer_ok, sizes_ok, sound_ok};

// NBQR.
#[tactic(auto, using(ground::proofs::Choice::judging), unfolding(rules::specs::Writes::judge_register))]
fn judge_nbqr(s: Saved, notices: &[u32], v: u32) -> Result<Writing, Refusal>
    ensures { result ≡ judge_register s notices.now Register.Nbqr v }
{
    if !parts::is_free_block(notices, v) {
        return Err(Refusal::BadValue);
    }
    if QUEUE_SIZE <= s.nbqr.length {
        return Err(Refusal::Full);
    }
    Ok(Writing::Gives(BlockAddress(v)))
}

// A register itself.
#[tactic(auto, using(ground::proofs::Choice::judging), unfolding(rules::specs::Writes::judge_register, ground::specs::Choice::pick))]
fn judge_register(s: Saved, notices: &[u32], register: Register, v: u32) -> Result<Writing, Refusal>
    ensures { result ≡ judge_register s notices.now register v }
{
    match register {
        Register::Pcsr0 => {
            let reset = v / 0x8000_0000 % 2 == 1;
            let does = if reset {
                Writing::Reset
            } else {
                Writing::Sets(Number::Pcsr0)
            };
            checked(pcsr0_ok(v), does)
        }
        Register::Pcsr1 => Ok(Writing::Sets(Number::InterruptBits)),
        Register::SlotCount => checked(v <= SLOTS_MOST, Writing::Sets(Number::SlotCount)),
        Register::Nbqr => judge_nbqr(s, notices, v),
        Register::SendPointer => checked(
            pointer_ok(SEND_SIZE, v),
            Writing::Sets(Number::SendPointer),
        ),
        Register::ReceivePointer => checked(
            pointer_ok(RECEIVE_SIZE, v),
            Writing::Sets(Number::ReceivePointer),
        ),
        Register::Nlhr | Register::Nqr | Register::Aqr | Register::Taken | Register::Faulted => {
            Err(Refusal::ReadOnly)
        }
    }
}

// What a write of v to register number a does, or why it is refused.
#[tactic(auto, using(laws::proofs::Sound::sized, crate::proofs::Judged::writing), unfolding(rules::specs::Calls::is_reset, rules::specs::Writes::judge_reached))]
pub fn judge_write(m: &Seen<'_>, a: u32, v: u32) -> Result<Writing, Refusal>
    ensures { result ≡ judge_write (seen m.now) a v }
{
    let (data, notices) = (m.bytes.len(), m.notices.len());
    if !sizes_ok(m.send.len(), m.receive.len(), data, notices) {
        return Err(Refusal::Sizes);
    }
    // Soundness is worked out for a PCSR0 write with reset too, and does not count (docs/DECISIONS.md).
    let reset = (a == PCSR0_NUMBER) & (v / 0x8000_0000 % 2 == 1);
    if !(reset | sound_ok(m.saved, m.send, m.receive, data, notices)) {
        return Err(Refusal::Unsound);
    }
    match map::reach(m.saved, map::decode(a))? {
        Reach::Itself(register) => judge_register(m.saved, m.notices, register, v),
        Reach::InSend(i) => parts::judge_send_word(m.send, data, i, v),
        Reach::InReceive(i) => parts::judge_receive_word(m.receive, m.notices, i, v),
    }
}
