// All that a receipt changes: data memory, its slot, AQR, the notice board, the packet counts.
ghost use Rattle.std.specs.Prelude.{◌≡◌, length};
ghost use Rattle.rules.specs.Receipt.{payload_stored, slot_stored, aqr_stored, counted_by, received_on_board};
ghost use Rattle.rules.specs.Calls.{receipt_reply};
ghost use Rattle.notices.specs.Steps.{Posts};
ghost use Rattle.receiver.specs.Acting.{Receivable, Landable, Storable, Enterable, Boardable};
ghost use Rattle.receiver.specs.Acting.{landed_on_board, Precedes, Receives};

use crate::meeting::Meeting;
use crate::posting;
use notices::Step;
use replies::refuse;
use rules::{Answer, Receipt, Receiving, Refusal, Reply, Saved};

// "payload to base plus offset".
#[tactic(auto, using(crate::proofs::Steps::payload_stored_lem, crate::proofs::Steps::payload_fits), unfolding(rules::specs::Receipt::payload_stored))]
fn store_payload(bytes: &mut [u8], packet: &[u8], x: Receiving)
    requires { Landable bytes.old packet.now x }
    ensures { bytes.new ≡ payload_stored packet.now x.packet x.receipt bytes.old }
{
    if let Receipt::Lands(_, v) = x.receipt {
        let offset = x.packet.header.control0 % 0x100_0000;
        packet::land::payload(bytes, v.base, offset, packet);
    }
}

// The slot after the packet; an ack and a fault leave it.
#[tactic(auto, using(crate::proofs::Steps::slot_kept))]
fn store_slot(receive: &mut [u32], x: Receiving)
    requires { Storable x receive.old }
    ensures { receive.new ≡ slot_stored x.packet x.receipt receive.old }
{
    if let Some(m) = Meeting::of(x) {
        tables::store_slot(receive, m.index, m.slot_after());
    }
}

// Slot plus 2^31 on AQR, where it is needed.
#[tactic(auto, using(crate::proofs::Steps::entry_asks))]
fn push_entry(x: Receiving, s: Saved, receive: &mut [u32]) -> Step
    requires { Enterable x s receive.old }
    ensures { Precedes (aqr_stored x.packet x.receipt) s receive.old result receive.new }
{
    let left = Step {
        saved: s,
        interrupts: 0,
    };
    let Some(m) = Meeting::of(x) else {
        return left;
    };
    if posting::needs_aqr(x) {
        return notices::push_aqr(m.index.0 + 0x8000_0000, s, receive);
    }
    left
}

// The slot is stored, and its entry pushed.
#[tactic(auto, using(crate::proofs::Steps::land_asks, crate::proofs::Steps::lands))]
fn land(x: Receiving, s: Saved, receive: &mut [u32]) -> Step
    requires { Enterable x s receive.old }
    ensures { Precedes (landed_on_board x) s receive.old result receive.new }
{
    store_slot(receive, x);
    push_entry(x, s, receive)
}

// One packet more, taken or faulted.
#[tactic(auto, using(crate::proofs::Steps::counts_fault, crate::proofs::Steps::counts_taken))]
fn count(r: Receipt, s: Saved) -> Saved
    ensures { result ≡ counted_by r s }
{
    match r {
        Receipt::Fails(_) => Saved {
            faulted: s.faulted.wrapping_add(1),
            ..s
        },
        Receipt::Acks(..) | Receipt::Lands(..) => Saved {
            taken: s.taken.wrapping_add(1),
            ..s
        },
    }
}

// All but data memory.
#[tactic(auto, using(crate::proofs::Steps::post_asks))]
fn receive_on_board(x: Receiving, s: Saved, receive: &mut [u32], notices: &mut [u32]) -> Step
    requires { Boardable x s receive.old (length notices.old) }
    ensures { Posts (received_on_board x.packet x.receipt) 7 s receive.old notices.old result
        receive.new notices.new }
{
    let landed = land(x, s, receive);
    let posting = posting::receipt_posting(x);
    let posted = notices::post_all(posting, landed.saved, receive, notices);
    Step {
        saved: count(x.receipt, posted.saved),
        interrupts: landed.interrupts + posted.interrupts,
    }
}

// Done, or a fault with its status.
#[tactic(auto, unfolding(rules::specs::Calls::receipt_reply))]
fn reply(r: Receipt) -> Reply
    ensures { result ≡ receipt_reply r }
{
    match r {
        Receipt::Fails(f) => Reply::Fault(f as u32),
        Receipt::Acks(..) | Receipt::Lands(..) => Reply::Done(0),
    }
}

// By what was judged: the payload, all that is on the board, and the reply. (The memories stay apart: `&mut` says which a receipt may write.)
#[tactic(auto, using(crate::proofs::Steps::payload_asks, crate::proofs::Steps::receives_no, crate::proofs::Steps::receives))]
pub fn act_receive(
    v: Result<Receiving, Refusal>,
    s: Saved,
    receive: &mut [u32],
    bytes: &mut [u8],
    notices: &mut [u32],
    packet: &[u8],
) -> Answer
    requires { Receivable v s receive.old bytes.old (length notices.old) packet.now }
    ensures { Receives v s receive.old bytes.old notices.old packet.now result
        receive.new bytes.new notices.new }
{
    match v {
        Err(why) => refuse(s, why),
        Ok(x) => {
            store_payload(bytes, packet, x);
            let done = receive_on_board(x, s, receive, notices);
            Answer {
                reply: reply(x.receipt),
                interrupts: done.interrupts,
                saved: done.saved,
            }
        }
    }
}
