// "Valid needs": when a slot takes packets.
ghost use Rattle.std.specs.Prelude.{◌≡◌};
ghost use Rattle.rules.specs.Slots.{slot_ok};

use crate::togo;
use rules::Slot;
use rules::sizes::{LISTS, MOST24};

// A slot is valid, beside a data memory of datalength bytes.
#[tactic(auto, unfolding(rules::specs::Slots::slot_ok))]
pub(crate) fn slot_ok(v: Slot, datalength: usize) -> bool
    ensures { result ≡ slot_ok v datalength }
{
    let flags = v.noteandflags;
    let note_index = flags / 0x1_0000 % 0x1_0000;
    let valid = flags / 0x8000 % 2 == 1;
    let indirect = flags / 0x4000 % 2 == 1;
    let notify = flags / 0x1000 % 2 == 1;
    let reserve = flags % 0x1000;
    let ack_note_index = v.acknote / 0x1_0000 % 0x1_0000;
    let flag_and_length = v.metaword / 0x100_0000 % 16 * 0x100_0000;
    // In the clause's order.
    valid
        & !indirect
        & (reserve == 0)
        & (v.base as usize + v.size as usize <= datalength)
        & togo::word_within_24(v.bytestogo)
        & (ack_note_index < LISTS)
        & (!notify | (note_index < LISTS))
        & (v.msgsize <= MOST24)
        & (v.msgoffset <= MOST24)
        & (v.metaword == flag_and_length)
}
