// What a packet leaves of the slot that it lands in.
ghost use Rattle.std.specs.Prelude.{◌≡◌, ◌+◌, ◌^◌, ◌<◌, ◌≤◌};
ghost use Rattle.ground.specs.Signed.{unsigned};
ghost use Rattle.rules.specs.Words.{most24};
ghost use Rattle.rules.specs.Receipt.{new_bytes_to_go};
ghost use Rattle.rules.specs.Receipt as rule;

use crate::choice::either;
use crate::meeting::Meeting;
use rules::{Metadata, Slot};

// At a message's end words 7 to 11 go to 0; msg_size and msg_offset stay.
#[tactic(auto, unfolding(rules::specs::Receipt::finished))]
fn finished(v: Slot) -> Slot
    ensures { result ≡ rule.finished v }
{
    Slot {
        metaword: 0,
        metadata: Metadata::default(),
        ..v
    }
}

impl Meeting {
    // The word of the new bytes_to_go.
    #[tactic(auto, using(crate::proofs::BytesToGo::numbers))]
    fn word_to_go(self) -> u32
        ensures { result ≡ unsigned (new_bytes_to_go self.packet self.slot) }
    {
        self.new_bytes_to_go().cast_unsigned()
    }

    // The slot as the packet leaves it, before a message's end: with use_msg_size its size, with use_msg_offset the offset, with the flag
    // the metadata, and bytes_to_go. It makes a notice's words, of 32 bits.
    #[tactic(auto, using(crate::proofs::Meetings::part_small), unfolding(rules::specs::Receipt::landed))]
    pub fn landed(self) -> Slot
        ensures value { result ≡ rule.landed self.packet self.slot }
        ensures offset { result.msgoffset ≤ most24 }
        ensures size { result.metaword + result.msgsize < 2 ^ 32 }
    {
        let h = self.packet.header;
        let v = self.slot;
        let use_msg_size = h.control0 / 0x8000_0000 % 2 == 1;
        let use_msg_offset = h.control0 / 0x4000_0000 % 2 == 1;
        let offset = h.control0 % 0x100_0000;
        let flagged = h.control1 / 0x800_0000 % 2 == 1;
        let flag_and_length = h.control1 / 0x100_0000 % 16 * 0x100_0000;
        let msg_size = h.control1 % 0x100_0000;
        Slot {
            bytestogo: self.word_to_go(),
            msgsize: either(use_msg_size, msg_size, v.msgsize),
            msgoffset: either(use_msg_offset, offset, v.msgoffset),
            metaword: either(flagged, flag_and_length, v.metaword),
            metadata: either(flagged, self.packet.metadata, v.metadata),
            ..v
        }
    }

    // The slot after the packet.
    #[tactic(auto, using(ground::proofs::Choice::branches), unfolding(rules::specs::Receipt::slot_after))]
    pub fn slot_after(self) -> Slot
        ensures { result ≡ rule.slot_after self.packet self.slot }
    {
        let left = self.landed();
        if self.completes() {
            finished(left)
        } else {
            left
        }
    }
}
