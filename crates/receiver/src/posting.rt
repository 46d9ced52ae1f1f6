// What a receipt posts, and whether it puts an entry on AQR. (`meeting` says why Known is asked for.)
ghost use Rattle.std.specs.Prelude.{◌≡◌, ◌<◌};
ghost use Rattle.rules.specs.declared.Receipt.{Receipt};
ghost use Rattle.rules.specs.Memory.{slots_most};
ghost use Rattle.rules.specs.Words.{src_node, slot_and_source};
ghost use Rattle.rules.specs.Receipt.{landed, message_notice, ack_notice, fault_notice, receipt_posting, needs_aqr};
ghost use Rattle.receiver.specs.Acting.{Known};

use crate::choice::either;
use crate::meeting::Meeting;
use rules::{Fault, Header, ListIndex, Metadata, Notice, Posting, Receipt, Receiving, SlotIndex};

// Word 0 of a message's and of an ack's notice: slot and src_node.
fn slot_and_source(i: SlotIndex, h: Header) -> u32
    requires { i.0 < slots_most }
    ensures { result ≡ slot_and_source i.0 (src_node h.address1) }
{
    let src_node = h.address1 / 16 % 0x1000;
    i.0 * 0x1_0000 + src_node * 16
}

impl Meeting {
    // A message's notice: offset, msg_size and metadata are the slot's.
    #[tactic(auto, using(ground::proofs::Choice::branches), unfolding(rules::specs::Receipt::message_notice))]
    fn notice(self) -> Notice
        ensures { result ≡ message_notice self.index self.packet.header (landed self.packet self.slot) }
    {
        let h = self.packet.header;
        let incarnation = h.control0 / 0x100_0000 % 16;
        let left = self.landed();
        let flagged = left.metaword / 0x800_0000 % 2 == 1;
        Notice {
            word0: slot_and_source(self.index, h),
            word1: incarnation * 0x100_0000 + left.msgoffset,
            word2: left.metaword + left.msgsize,
            metadata: either(flagged, left.metadata, Metadata::default()),
        }
    }

    // At a message's end, with notify: its notice, on the slot's list.
    #[tactic(auto, using(crate::proofs::Meetings::tells_end, crate::proofs::Meetings::tells_none))]
    fn posting(self) -> Option<Posting>
        ensures { result ≡ receipt_posting self.packet (Receipt.Lands self.index self.slot) }
    {
        let flags = self.slot.noteandflags;
        let note_index = flags / 0x1_0000 % 0x1_0000;
        let notify = flags / 0x1000 % 2 == 1;
        if !(self.completes() & notify) {
            return None;
        }
        Some(Posting {
            list: ListIndex(note_index),
            notice: self.notice(),
        })
    }
}

// An ack's notice: offset and word 3 are the packet's own.
#[tactic(auto, unfolding(rules::specs::Receipt::ack_notice))]
fn ack_notice(i: SlotIndex, h: Header) -> Notice
    requires { i.0 < slots_most }
    ensures { result ≡ ack_notice i h }
{
    let incarnation = h.control0 / 0x100_0000 % 16;
    let offset = h.control0 % 0x100_0000;
    Notice {
        word0: slot_and_source(i, h),
        word1: 0x2000_0000 + incarnation * 0x100_0000 + offset,
        word2: h.control1,
        metadata: Metadata::default(),
    }
}

// A fault's notice: the fields as they stand in the packet.
#[tactic(auto, using(crate::proofs::Meetings::status_low), unfolding(rules::specs::Receipt::fault_notice))]
fn fault_notice(h: Header, f: Fault) -> Notice
    ensures { result ≡ fault_notice h f }
{
    let dst_node = h.address0 / 0x1_0000 % 0x1000;
    let dst_slot = h.address1 / 0x1_0000 % 0x1_0000;
    let src_node = h.address1 / 16 % 0x1000;
    Notice {
        word0: dst_slot * 0x1_0000 + f as u32,
        word1: 0,
        word2: dst_node * 0x1_0000 + src_node,
        metadata: Metadata::default(),
    }
}

// What a receipt posts: a fault's notice, an ack's, or at a message's end its own.
#[tactic(auto, using(crate::proofs::Meetings::ack_slot, crate::proofs::Meetings::posts_fault, crate::proofs::Meetings::posts_ack, crate::proofs::Meetings::posts_message))]
pub(crate) fn receipt_posting(x: Receiving) -> Option<Posting>
    requires { Known x }
    ensures { result ≡ receipt_posting x.packet x.receipt }
{
    let h = x.packet.header;
    match x.receipt {
        Receipt::Fails(f) => Some(Posting {
            list: ListIndex(0),
            notice: fault_notice(h, f),
        }),
        Receipt::Acks(i, v) => {
            let ack_note_index = v.acknote / 0x1_0000 % 0x1_0000;
            Some(Posting {
                list: ListIndex(ack_note_index),
                notice: ack_notice(i, h),
            })
        }
        Receipt::Lands(..) => Meeting::of(x)?.posting(),
    }
}

// Whether a receipt puts its slot on AQR: at a message's end, with do_acks.
#[tactic(auto, using(crate::proofs::Meetings::no_entry))]
pub(crate) fn needs_aqr(x: Receiving) -> bool
    requires { Known x }
    ensures { result ≡ needs_aqr x.packet x.receipt }
{
    let Some(m) = Meeting::of(x) else {
        return false;
    };
    let do_acks = m.slot.noteandflags / 0x2000 % 2 == 1;
    m.completes() & do_acks
}
