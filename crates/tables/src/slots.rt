// The 64 slots, 16 words each from word 0 of Receive RAM on: these two alone read and store them (a reset clears the whole RAM).
// One trait over slots and descriptors is no plainer: they share no field but the metadata, so its impls would hold these same lists.
ghost use Rattle.std.specs.Prelude.{◌≡◌, ◌<◌, length};
ghost use Rattle.rules.specs.Memory.{receive_size, slots_most};
ghost use Rattle.rules.specs.Slots.{slot_at, store_slot};

use crate::metadata_at;
use rules::sizes::SLOT_SIZE;
use rules::{Slot, SlotIndex};

// The sixteen words of a slot.
#[tactic(auto, unfolding(rules::specs::Slots::slot_at))]
pub fn slot_at(receive: &[u32], i: SlotIndex) -> Slot
    requires { (i.0 < slots_most) × (length receive.now ≡ receive_size) }
    ensures { result ≡ slot_at receive.now i }
{
    let first = SLOT_SIZE as usize * i.0 as usize;
    Slot {
        base: receive[first],
        size: receive[first + 1],
        noteandflags: receive[first + 2],
        bytestogo: receive[first + 3],
        msgsize: receive[first + 4],
        msgoffset: receive[first + 5],
        acknote: receive[first + 6],
        metaword: receive[first + 7],
        metadata: metadata_at(receive, first + 8),
        lock: receive[first + 12],
        mark: receive[first + 13],
        namea: receive[first + 14],
        nameb: receive[first + 15],
    }
}

// The sixteen words stored.
#[tactic(auto, unfolding(rules::specs::Slots::store_slot))]
pub fn store_slot(receive: &mut [u32], i: SlotIndex, v: Slot)
    requires { (i.0 < slots_most) × (length receive.old ≡ receive_size) }
    ensures { receive.new ≡ store_slot receive.old i v }
{
    let m = v.metadata;
    let row = [
        v.base,
        v.size,
        v.noteandflags,
        v.bytestogo,
        v.msgsize,
        v.msgoffset,
        v.acknote,
        v.metaword,
        m.a,
        m.b,
        m.c,
        m.d,
        v.lock,
        v.mark,
        v.namea,
        v.nameb,
    ];
    words::copy(receive, SLOT_SIZE as usize * i.0 as usize, &row);
}
