// bytes_to_go: a number that goes below zero when pieces precede the size, stored as a two's complement word.
ghost use Rattle.std.specs.Prelude.{◌≡◌, ◌≤◌, true, pos, ◌+ℤ◌, ◌-ℤ◌};
ghost use Rattle.ground.specs.Signed.{signed};
ghost use Rattle.ground.specs.Choice.{pick};
ghost use Rattle.rules.specs.Words.{most24, uses_msg_size, msg_size};
ghost use Rattle.rules.specs.Packet.{packet_most};
ghost use Rattle.rules.specs.Slots.{within24};
ghost use Rattle.rules.specs.Receipt.{new_bytes_to_go};
ghost use Rattle.rules.specs.Receipt as rule;

use crate::choice::either;
use crate::meeting::Meeting;
use rules::Header;
use rules::sizes::MOST24;

// "within 16,777,215 either way".
#[tactic(auto, using(crate::proofs::BytesToGo::numbers), unfolding(rules::specs::Slots::within24))]
fn within_24(z: i32) -> bool
    ensures { result ≡ within24 z }
{
    z.unsigned_abs() <= MOST24
}

// A word stands for a number within 16,777,215 either way.
#[tactic(auto, using(crate::proofs::BytesToGo::numbers))]
pub(crate) fn word_within_24(w: u32) -> bool
    ensures { result ≡ within24 (signed w) }
{
    within_24(w.cast_signed())
}

// The size that a packet adds: msg_size with use_msg_size, else none.
#[tactic(auto, using(ground::proofs::Choice::branches))]
fn size_added(h: Header) -> u32
    ensures value { result ≡ pick (uses_msg_size h.control0) (msg_size h.control1) 0 }
    ensures upper_bound { result ≤ most24 }
{
    let use_msg_size = h.control0 / 0x8000_0000 % 2 == 1;
    let msg_size = h.control1 % 0x100_0000;
    either(use_msg_size, msg_size, 0)
}

// A number in the range, with a size added and a payload taken away.
#[tactic(auto, using(std::proofs::lemmas::Int::ints), unfolding(rules::specs::Slots::within24))]
fn moved(z: i32, size: u32, payload: u32) -> i32
    requires { (within24 z ≡ true) × (size ≤ most24) × (payload ≤ packet_most) }
    ensures { result ≡ z +ℤ pos size -ℤ pos payload }
{
    z + (size as i32) - (payload as i32)
}

impl Meeting {
    // "use_msg_size .. adds it to bytes_to_go"; "bytes_to_go falls by the payload".
    #[tactic(auto, using(crate::proofs::BytesToGo::numbers), unfolding(rules::specs::Receipt::new_bytes_to_go))]
    pub fn new_bytes_to_go(self) -> i32
        ensures { result ≡ new_bytes_to_go self.packet self.slot }
    {
        let p = self.packet;
        let old = self.slot.bytestogo.cast_signed();
        moved(old, size_added(p.header), p.payloadlength)
    }

    // Whether it is within 16,777,215 either way.
    #[tactic(auto, using(crate::proofs::BytesToGo::numbers))]
    pub fn new_within_24(self) -> bool
        ensures { result ≡ within24 (new_bytes_to_go self.packet self.slot) }
    {
        within_24(self.new_bytes_to_go())
    }

    // "The message is complete if the result is 0 and the packet had payload or use_msg_size."
    #[tactic(auto, using(crate::proofs::BytesToGo::numbers), unfolding(rules::specs::Receipt::completes))]
    pub fn completes(self) -> bool
        ensures { result ≡ rule.completes self.packet self.slot }
    {
        let p = self.packet;
        let use_msg_size = p.header.control0 / 0x8000_0000 % 2 == 1;
        (self.new_bytes_to_go() == 0) & ((0 < p.payloadlength) | use_msg_size)
    }
}
