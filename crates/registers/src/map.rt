// The map: what a register number means, what an access reaches, and how a pointer moves on.
ghost use Rattle.std.specs.Prelude.{◌≡◌, ◌<◌, ◌≤◌, ◌/◌};
ghost use Rattle.rules.specs.Registers as rule;

use rules::sizes::{RECEIVE_SIZE, SEND_SIZE};
use rules::{Answer, Mapped, Reach, Refusal, Register, Reply, Saved};

// What a register number means.
#[tactic(auto, using(ground::proofs::Choice::branches), unfolding(rules::specs::Registers::decode, rules::specs::Registers::mapped, rules::specs::Registers::single, ground::specs::Choice::pick))]
pub fn decode(a: u32) -> Mapped
    ensures { result ≡ rule.decode a }
{
    if a % 4 != 0 {
        return Mapped::Unmapped;
    }
    match a {
        0x000 => Mapped::Single(Register::Pcsr0),
        0x004 => Mapped::Single(Register::Pcsr1),
        0x008 => Mapped::Single(Register::Nlhr),
        0x00C => Mapped::Single(Register::SlotCount),
        0x014 => Mapped::Single(Register::Nqr),
        0x018 => Mapped::Single(Register::Aqr),
        0x01C => Mapped::Single(Register::Nbqr),
        0x020 => Mapped::Single(Register::Taken),
        0x024 => Mapped::Single(Register::Faulted),
        0x040 => Mapped::Single(Register::SendPointer),
        0x044 => Mapped::SendWord,
        0x048 => Mapped::SendStep,
        0x080 => Mapped::Single(Register::ReceivePointer),
        0x084 => Mapped::ReceiveWord,
        0x088 => Mapped::ReceiveStep,
        0x100..=0x1FC => Mapped::DescriptorWord((a - 0x100) / 4),
        0x200..=0x2FC => Mapped::SendPage(a - 0x200),
        0x300..=0x3FC => Mapped::ReceivePage(a - 0x300),
        _ => Mapped::Unmapped,
    }
}

// The word at a pointer with its low byte replaced.
fn paged_word(p: u32, low: u32) -> u32
    ensures { result ≡ rule.paged p low / 4 }
{
    p / 256 * 64 + low / 4
}

// What an access reaches.
#[tactic(auto, unfolding(rules::specs::Registers::reach))]
pub(crate) fn reach(s: Saved, r: Mapped) -> Result<Reach, Refusal>
    ensures { result ≡ rule.reach s r }
{
    match r {
        Mapped::Single(x) => Ok(Reach::Itself(x)),
        Mapped::SendWord | Mapped::SendStep => Ok(Reach::InSend(s.sendpointer / 4)),
        Mapped::ReceiveWord | Mapped::ReceiveStep => Ok(Reach::InReceive(s.receivepointer / 4)),
        Mapped::DescriptorWord(i) => Ok(Reach::InSend(i)),
        Mapped::SendPage(low) => Ok(Reach::InSend(paged_word(s.sendpointer, low))),
        Mapped::ReceivePage(low) => Ok(Reach::InReceive(paged_word(s.receivepointer, low))),
        Mapped::Unmapped => Err(Refusal::NoRegister),
    }
}

// The pointer p into a RAM of so many words, moved on by a word: to 0 after the last.
#[tactic(auto, using(crate::proofs::Mapping::word_on))]
fn pointer_on(words: u32, p: u32) -> u32
    requires { (0 < words) × (words ≤ 2048) }
    ensures { result ≡ rule.pointer_on words p }
{
    // The first % is for any pointer's sake: nothing is asked of the saved state here, and no sum may wrap.
    (p % (4 * words) + 4) % (4 * words)
}

// The saved state after an access that is carried out: a step moves its pointer on.
#[tactic(auto, unfolding(rules::specs::Registers::stepped))]
fn stepped(r: Mapped, s: Saved) -> Saved
    ensures { result ≡ rule.stepped r s }
{
    match r {
        Mapped::SendStep => Saved {
            sendpointer: pointer_on(SEND_SIZE as u32, s.sendpointer),
            ..s
        },
        Mapped::ReceiveStep => Saved {
            receivepointer: pointer_on(RECEIVE_SIZE as u32, s.receivepointer),
            ..s
        },
        _ => s,
    }
}

// What an access that was carried out replies; a step has moved its pointer on.
pub(crate) fn done(r: Mapped, value: u32, s: Saved) -> Answer
    ensures { result ≡ record { reply = Reply.Done value; interrupts = 0; saved = rule.stepped r s } }
{
    Answer {
        reply: Reply::Done(value),
        interrupts: 0,
        saved: stepped(r, s),
    }
}
