// A whole packet formed in a lent room.
// (Places stand beside the room: a lent room can't grow.)
ghost use Rattle.std.specs.Prelude.{◌+◌, ◌-◌, ◌≤◌, length};
ghost use Rattle.ground.specs.Lists.{part};
ghost use Rattle.rules.specs.Packet.{plain_start, flagged_start, metadata_bytes, front_bytes, body_check_bytes, form};
ghost use Rattle.packet.specs.Packet.{Forming, Formed, Stored};

use crate::payload::Payload;
use rules::sizes::{FLAGGED_START, PLAIN_START};
use rules::{Header, Metadata};

// "With the flag, four metadata words", from byte 20 on.
fn put_metadata(room: &mut [u8], header: Header, metadata: Metadata) -> usize
    requires { flagged_start ≤ length room.old }
    ensures stored { Stored (metadata_bytes header metadata) plain_start room.old room.new result }
    ensures upper_bound { result ≤ flagged_start }
{
    if crate::meta_flag(header.control1) {
        let row = [metadata.a, metadata.b, metadata.c, metadata.d];
        words::copy_words(room, PLAIN_START, &row);
        FLAGGED_START
    } else {
        PLAIN_START
    }
}

// Words 0 to 4 and the metadata. The header check goes in last.
fn put_front(room: &mut [u8], header: Header, metadata: Metadata) -> usize
    requires { flagged_start ≤ length room.old }
    ensures stored { Stored (front_bytes header metadata) 0 room.old room.new result }
    ensures upper_bound { result ≤ flagged_start }
{
    let row = [
        header.address0,
        header.address1,
        header.control0,
        header.control1,
    ];
    words::copy_words(room, 0, &row);
    let from = put_metadata(room, header, metadata);
    let check = crate::header_check(room, from);
    words::put(room, 16, crate::check_word(check));
    from
}

// "If not empty, body check 16 and zero 16 follow."
fn put_body_check(room: &mut [u8], from: usize, end: usize) -> usize
    requires ordered { from ≤ end }
    requires fits { end + 4 ≤ length room.old }
    ensures { Stored (body_check_bytes (part from (end - from) room.old)) end room.old room.new result }
{
    if end == from {
        return end;
    }
    let check = checksum::of(&room[from..end]);
    words::put(room, end, crate::check_word(check));
    end + 4
}

// A packet of that payload; its length.
pub fn packet<P: Payload>(room: &mut [u8], header: Header, metadata: Metadata, payload: P) -> usize
    requires { Forming room.old (P.bytes payload) }
    ensures { Formed (form header metadata (P.bytes payload)) room.old room.new result }
{
    let from = put_front(room, header, metadata);
    let end = payload.put(room, from);
    put_body_check(room, from, end)
}
