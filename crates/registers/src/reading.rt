// The read: what it reaches, or why it is refused; and the word that it shows.
ghost use Rattle.std.specs.Prelude.{◌≡◌, ◌≤◌, ◌<◌, length, get_or};
ghost use Rattle.rules.specs.Memory.{slot_size};
ghost use Rattle.rules.specs.Slots.{slot_words};
ghost use Rattle.rules.specs.Registers.{decode, shown_itself};
ghost use Rattle.rules.specs.Registers as rule;
ghost use Rattle.rules.specs.Calls.{judge_read};
ghost use Rattle.laws.specs.Lent.{seen};
ghost use Rattle.registers.specs.Reading.{Showable, InsideReceive, Readable, Reads};

use crate::map;
use replies::refuse;
use rules::sizes::{AQR_FROM, LISTS_FROM, NQR_FROM, QUEUE_SIZE, SLOT_SIZE};
use rules::{Answer, Mapped, Reach, Refusal, Register, Saved, Seen, Shown, Slot, SlotIndex};

// What a read of a register number reaches, by the table's rows in their order.
pub fn judge_read(m: &Seen<'_>, a: u32) -> Result<Reach, Refusal>
    ensures { result ≡ judge_read (seen m.now) (decode a) }
{
    sound::gate(m.saved, m.send, m.receive, m.bytes.len(), m.notices.len())?;
    map::reach(m.saved, map::decode(a))
}

// PCSR1: ready, int_hi, int_lo, idle, nbqr_empty, nbqr_full, and 4 in the four bits from bit 16 on.
#[tactic(auto, unfolding(rules::specs::Registers::pcsr1))]
fn pcsr1(s: Saved) -> u32
    requires { (s.inthi ≤ 1) × (s.intlo ≤ 1) }
    ensures { result ≡ rule.pcsr1 s }
{
    0x8000_0000
        + s.inthi * 0x4000_0000
        + s.intlo * 0x2000_0000
        + 0x1000_0000
        + u32::from(s.nbqr.length == 0) * 0x800_0000
        + u32::from(QUEUE_SIZE <= s.nbqr.length) * 0x400_0000
        + 0x4_0000
}

// A word that is shown, with nothing changed.
fn shows(s: Saved, word: u32) -> Shown
    ensures { result ≡ rule.shows s word }
{
    Shown { word, saved: s }
}

// What a register shows, and the saved state after that.
#[tactic(auto, unfolding(rules::specs::Registers::shown_itself))]
fn shown_itself(s: Saved, receive: &[u32], x: Register) -> Shown
    requires { Showable s receive.now }
    ensures { result ≡ shown_itself s receive.now x }
{
    match x {
        Register::Pcsr0 => shows(s, s.pcsr0),
        Register::Pcsr1 => shows(s, pcsr1(s)),
        Register::Nlhr => shows(s, 0x1000),
        Register::SlotCount => shows(s, s.slots),
        // The oldest entry of NQR or AQR is shown, and lost.
        Register::Nqr => {
            let oldest = s.nqr.remove(receive, NQR_FROM);
            let left = Saved {
                nqr: oldest.queue,
                ..s
            };
            shows(left, oldest.word)
        }
        Register::Aqr => {
            let oldest = s.aqr.remove(receive, AQR_FROM);
            let left = Saved {
                aqr: oldest.queue,
                ..s
            };
            shows(left, oldest.word)
        }
        Register::Nbqr => shows(s, 0),
        Register::Taken => shows(s, s.taken),
        Register::Faulted => shows(s, s.faulted),
        Register::SendPointer => shows(s, s.sendpointer),
        Register::ReceivePointer => shows(s, s.receivepointer),
    }
}

// Word k of a slot.
fn slot_word(v: Slot, k: u32) -> u32
    requires { k < slot_size }
    ensures { result ≡ get_or (slot_words v) k 0 }
{
    let m = v.metadata;
    match k {
        0 => v.base,
        1 => v.size,
        2 => v.noteandflags,
        3 => v.bytestogo,
        4 => v.msgsize,
        5 => v.msgoffset,
        6 => v.acknote,
        7 => v.metaword,
        8 => m.a,
        9 => m.b,
        10 => m.c,
        11 => m.d,
        12 => v.lock,
        13 => v.mark,
        14 => v.namea,
        _ => v.nameb,
    }
}

// A word of Receive RAM; a slot's words are read with their slot.
fn receive_word(receive: &[u32], i: u32) -> u32
    requires { InsideReceive receive.now i }
    ensures { result ≡ get_or receive.now i 0 }
{
    if i < LISTS_FROM {
        let slot = tables::slot_at(receive, SlotIndex(i / SLOT_SIZE));
        return slot_word(slot, i % SLOT_SIZE);
    }
    receive[i as usize]
}

// A read by what it reaches, a refusal too.
#[tactic(auto, using(crate::proofs::Showing::reading), unfolding(rules::specs::Calls::act_read, rules::specs::Calls::read_done))]
pub fn act_read(
    r: Mapped,
    v: Result<Reach, Refusal>,
    s: Saved,
    send: &[u32],
    receive: &[u32],
) -> Answer
    requires { Readable s send.now receive.now v }
    ensures { Reads r v s send.now receive.now result }
{
    match v {
        Err(why) => refuse(s, why),
        Ok(Reach::Itself(x)) => {
            let shown = shown_itself(s, receive, x);
            map::done(r, shown.word, shown.saved)
        }
        Ok(Reach::InSend(i)) => map::done(r, send[i as usize], s),
        Ok(Reach::InReceive(i)) => map::done(r, receive_word(receive, i), s),
    }
}
