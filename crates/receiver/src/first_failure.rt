// The table of steps: what a packet comes to. The first step that fails decides.
ghost use Rattle.std.specs.Prelude.{◌≡◌};
ghost use Rattle.rules.specs.Calls.{receipt};
ghost use Rattle.laws.specs.Lent.{seen};
ghost use Rattle.packet.specs.Packet.{Sized};
ghost use Rattle.receiver.specs.Judging.{Judgeable, Addressed, Decides};

use crate::meeting::Meeting;
use crate::slots;
use packet::read;
use rules::{Fault, Packet, Receipt, Seen, SlotIndex};

// The steps that data passes. The body check is the last, so that no other failure costs a pass over the payload. (Sized is asked for as in
// `packet::read`.)
#[tactic(auto, using(crate::proofs::Asked::data_steps, ground::proofs::Choice::judging))]
fn data_receipt(m: Meeting, packet: &[u8]) -> Receipt
    requires { Sized packet.now }
    ensures { Decides m.index m.slot packet.now m.packet result }
{
    let v = m.slot;
    let p = m.packet;
    let offset = p.header.control0 % 0x100_0000;
    // "offset above buffer size"
    if v.size < offset {
        return Receipt::Fails(Fault::OffsetAbove);
    }
    // "offset plus payload above it"
    if v.size < offset + p.payloadlength {
        return Receipt::Fails(Fault::Beyond);
    }
    // "new bytes_to_go beyond 16,777,215 either way (H)"
    if !m.new_within_24() {
        return Receipt::Fails(Fault::Beyond);
    }
    // "body check or its padding"
    if !read::body_checks(packet) {
        return Receipt::Fails(Fault::BodyCheck);
    }
    Receipt::Lands(m.index, v)
}

// The steps from the slot on.
#[tactic(auto, using(crate::proofs::Asked::payload_asks, laws::proofs::Receipts::usable, crate::proofs::Asked::decided, ground::proofs::Choice::judging), unfolding(rules::specs::Receipt::receipt_of))]
fn receipt_in(m: &Seen<'_>, packet: &[u8], p: Packet) -> Receipt
    requires { Addressed m.now.saved m.now.receive.now packet.now p }
    ensures { result ≡ receipt (seen m.now) packet.now }
{
    let h = p.header;
    let dst_slot = h.address1 / 0x1_0000 % 0x1_0000;
    let incarnation = h.control0 / 0x100_0000 % 16;
    let our_incarnation = m.saved.pcsr0 / 0x1_0000 % 16;
    let ack_pkt = h.control0 / 0x2000_0000 % 2 == 1;
    let i = SlotIndex(dst_slot);
    let v = tables::slot_at(m.receive, i);
    // "slot not valid"
    if !slots::slot_ok(v, m.bytes.len()) {
        return Receipt::Fails(Fault::SlotNotValid);
    }
    // "incarnation"
    if incarnation != our_incarnation {
        return Receipt::Fails(Fault::Incarnation);
    }
    // "ack: notice to ack_note_index, no slot change, end"
    if ack_pkt {
        return Receipt::Acks(i, v);
    }
    let meeting = Meeting {
        index: i,
        slot: v,
        packet: p,
    };
    data_receipt(meeting, packet)
}

// All steps: those before the slot, then those from it on.
#[tactic(auto, using(ground::proofs::Choice::judging), unfolding(rules::specs::Receipt::receipt_of))]
pub(crate) fn receipt_of(m: &Seen<'_>, packet: &[u8], p: Packet) -> Receipt
    requires { Judgeable m.now.saved m.now.receive.now packet.now p }
    ensures { result ≡ receipt (seen m.now) packet.now }
{
    // "header check"
    if !read::header_checks(packet) {
        return Receipt::Fails(Fault::HeaderCheck);
    }
    let h = p.header;
    let dst_node = h.address0 / 0x1_0000 % 0x1000;
    let our_node = m.saved.pcsr0 % 0x1_0000;
    let dst_slot = h.address1 / 0x1_0000 % 0x1_0000;
    // "zero and reserved fields, meta_len as meta_cnt, ack is 20 bytes (H)"
    if !read::fields_ok(p) {
        return Receipt::Fails(Fault::Fields);
    }
    // "dst_node is ours"
    if dst_node != our_node {
        return Receipt::Fails(Fault::Node);
    }
    // "slot at or above the count (H)"
    if m.saved.slots <= dst_slot {
        return Receipt::Fails(Fault::SlotAboveCount);
    }
    receipt_in(m, packet, p)
}
