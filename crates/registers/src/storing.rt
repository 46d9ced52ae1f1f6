// What a write stores: a number of the saved state, a word of Send RAM, a word of Receive RAM.
ghost use Rattle.std.specs.Prelude.{◌≡◌, length, set};
ghost use Rattle.rules.specs.Sending as sending;
ghost use Rattle.rules.specs.Slots.{slot_words};
ghost use Rattle.rules.specs.Writes.{bits_cleared, number_set, send_stored, receive_stored};
ghost use Rattle.laws.specs.Writing.{PlainWord};
ghost use Rattle.registers.specs.Writing.{InSend, InReceive, opened};

use rules::sizes::DESCRIPTOR_SIZE;
use rules::{Descriptor, Metadata, Number, ReceiveStore, Saved, SendStore, Slot};
use tables::{
    descriptor_at, head_word, place_word, slot_at, store_descriptor, store_slot, token_word,
};

// ---- the saved state

// The interrupt bits are cleared where the word's bits are 0.
#[tactic(auto, unfolding(rules::specs::Writes::bits_cleared, ground::specs::Choice::pick))]
fn bits_cleared(v: u32, s: Saved) -> Saved
    ensures { result ≡ bits_cleared v s }
{
    let int_hi = v / 0x4000_0000 % 2 == 1;
    let int_lo = v / 0x2000_0000 % 2 == 1;
    Saved {
        inthi: if int_hi { s.inthi } else { 0 },
        intlo: if int_lo { s.intlo } else { 0 },
        ..s
    }
}

// A number of the saved state.
#[tactic(auto, unfolding(rules::specs::Writes::number_set))]
pub(crate) fn number_set(n: Number, v: u32, s: Saved) -> Saved
    ensures { result ≡ number_set n v s }
{
    match n {
        Number::Pcsr0 => Saved { pcsr0: v, ..s },
        Number::InterruptBits => bits_cleared(v, s),
        Number::SlotCount => Saved { slots: v, ..s },
        Number::SendPointer => Saved {
            sendpointer: v,
            ..s
        },
        Number::ReceivePointer => Saved {
            receivepointer: v,
            ..s
        },
    }
}

// ---- Send RAM

// A descriptor after a control1 word with go 1: bytes_to_go is msg_size, stalled and done are cleared.
#[tactic(auto, unfolding(rules::specs::Sending::started))]
fn started(v: u32, d: Descriptor) -> Descriptor
    ensures { result ≡ sending.started v d }
{
    Descriptor {
        bytestogo: v % 0x100_0000,
        control1: v,
        // stalled and done, bits 30 and 29, go to 0.
        status2: d.status2 / 0x8000_0000 * 0x8000_0000 + d.status2 % 0x2000_0000,
        ..d
    }
}

// A word of Send RAM.
#[tactic(auto, unfolding(rules::specs::Writes::send_stored))]
pub(crate) fn store_send(x: SendStore, v: u32, send: &mut [u32])
    requires { InSend x (length send.old) }
    ensures { send.new ≡ send_stored x v send.old }
{
    match x {
        SendStore::DirectWord(i) => {
            send[i as usize] = v;
        }
        SendStore::Word(d, k) => {
            send[DESCRIPTOR_SIZE as usize * d.0 as usize + k as usize] = v;
        }
        SendStore::Start(d) => {
            let words = descriptor_at(send, d);
            store_descriptor(send, d, started(v, words));
        }
    }
}

// ---- Receive RAM

// A slot with another word 0, 1 or 6.
fn with_word(x: Slot, k: u32, v: u32) -> Slot
    requires { PlainWord k }
    ensures { slot_words result ≡ set (slot_words x) k v }
{
    match k {
        0 => Slot { base: v, ..x },
        1 => Slot { size: v, ..x },
        _ => Slot { acknote: v, ..x },
    }
}

// A slot with another word 2: words 3, 4, 5 and 7 to 11 go to 0.
fn with_word2(x: Slot, v: u32) -> Slot
    ensures { slot_words result ≡ opened v (slot_words x) }
{
    Slot {
        noteandflags: v,
        bytestogo: 0,
        msgsize: 0,
        msgoffset: 0,
        metaword: 0,
        metadata: Metadata::default(),
        ..x
    }
}

// A word of Receive RAM.
#[tactic(auto, unfolding(rules::specs::Writes::receive_stored))]
pub(crate) fn store_receive(x: ReceiveStore, v: u32, receive: &mut [u32])
    requires { InReceive x (length receive.old) }
    ensures { receive.new ≡ receive_stored x v receive.old }
{
    match x {
        ReceiveStore::SlotWord(i, k) => {
            let slot = slot_at(receive, i);
            store_slot(receive, i, with_word(slot, k, v));
        }
        ReceiveStore::SlotWord2(i) => {
            let slot = slot_at(receive, i);
            store_slot(receive, i, with_word2(slot, v));
        }
        // The reader's place too.
        ReceiveStore::FirstBlock(l, b) => {
            receive[head_word(l)] = b.0;
            receive[place_word(l)] = b.0;
        }
        ReceiveStore::ListToken(l) => {
            receive[token_word(l)] = v;
        }
    }
}
