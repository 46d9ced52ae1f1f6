// Data that a packet carries, and the slot of the table that it meets.
ghost use Rattle.std.specs.Prelude.{◌≡◌, ◌<◌, ◌≤◌, MatchOption};
ghost use Rattle.rules.specs.Memory.{slots_most};
ghost use Rattle.rules.specs.Packet.{packet_most};
ghost use Rattle.laws.specs.Receipts.{Usable};
ghost use Rattle.receiver.specs.Acting.{NoData, lands_at, Known};

use rules::{Packet, Receipt, Receiving, Slot, SlotIndex};

// A packet with data, and the valid slot that it meets: so bytes_to_go counts in an i32, and a notice's words fit 32 bits.
#[derive(Clone, Copy)]
pub(crate) struct Meeting {
    pub index: SlotIndex,
    pub slot: Slot,
    pub packet: Packet,
    ghost low: { index.0 < slots_most },
    ghost payload: { packet.payloadlength ≤ packet_most },
    ghost usable: { Usable slot },
}

impl Meeting {
    // The slot that the data of what was judged lands in; an ack and a fault carry none. (Known can't be the type's own: Receiving stands in
    // rules, below what Known speaks of.)
    pub fn of(x: Receiving) -> Option<Self>
        requires { Known x }
        ensures { MatchOption result (NoData x.receipt)
            (λ m. x ≡ lands_at m.packet m.index m.slot) }
    {
        let Receipt::Lands(index, slot) = x.receipt else {
            return None;
        };
        Some(Meeting {
            index,
            slot,
            packet: x.packet,
        })
    }
}
