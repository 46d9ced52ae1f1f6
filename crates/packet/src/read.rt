// What is read of a slice that may be a packet. Most take a plain slice and ask for Sized: callers have one, docs/PROMISES.md names what they
// call, and a type that knows the length to be right would ask more of them.
ghost use Rattle.std.specs.Prelude.{◌≡◌, ◌≤◌, length};
ghost use Rattle.rules.specs.Packet.{plain_start, flagged_start, header_of, flagged, payload_from, payload_of, metadata_in, metadata_of, packet_of};
ghost use Rattle.rules.specs.Packet.{is_packet, header_checks, fields_ok, body_checks};
ghost use Rattle.packet.specs.Packet.{Sized};

use rules::sizes::{FLAGGED_START, PACKET_MOST, PLAIN_START};
use rules::{Header, Metadata, Packet};

// The meta flag, in word 3.
fn flagged(packet: &[u8]) -> bool
    requires { plain_start ≤ length packet.now }
    ensures { result ≡ flagged packet.now }
{
    crate::meta_flag(words::get(packet, 12))
}

// "Length: a multiple of 4; without the flag 20, or 28 to 152; with it 36, or 44 to 168. Otherwise no-packet." Of any slice.
pub fn is_packet(packet: &[u8]) -> bool
    ensures { result ≡ is_packet packet.now }
{
    let n = packet.len();
    if n < PLAIN_START {
        return false;
    }
    let right = if flagged(packet) {
        matches!(n, FLAGGED_START | 44..=PACKET_MOST)
    } else {
        matches!(n, PLAIN_START | 28..=152)
    };
    right && n % 4 == 0
}

// "The payload begins at byte 20, or at byte 36 with metadata".
#[tactic(auto, unfolding(rules::specs::Packet::payload_from, ground::specs::Choice::pick))]
fn payload_from(packet: &[u8]) -> usize
    requires { Sized packet.now }
    ensures { result ≡ payload_from packet.now }
{
    if flagged(packet) {
        FLAGGED_START
    } else {
        PLAIN_START
    }
}

// The payload: the packet's part from that byte, up to the word of the body check.
pub fn payload(packet: &[u8]) -> &[u8]
    requires { Sized packet.now }
    ensures { result.now ≡ payload_of packet.now }
{
    let from = payload_from(packet);
    let end = packet.len() - 4;
    // A packet without payload has no body check either.
    &packet[from..end.max(from)]
}

// Words 0 to 3.
fn header(packet: &[u8]) -> Header
    requires { Sized packet.now }
    ensures { result ≡ header_of packet.now }
{
    Header {
        address0: words::get(packet, 0),
        address1: words::get(packet, 4),
        control0: words::get(packet, 8),
        control1: words::get(packet, 12),
    }
}

// The four words from byte 20 on.
fn metadata_words(packet: &[u8]) -> Metadata
    requires { flagged_start ≤ length packet.now }
    ensures { result ≡ metadata_in packet.now }
{
    Metadata {
        a: words::get(packet, 20),
        b: words::get(packet, 24),
        c: words::get(packet, 28),
        d: words::get(packet, 32),
    }
}

// "With the flag, four metadata words"; zeros without.
#[tactic(auto, using(crate::proofs::Reading::room_for_metadata), unfolding(rules::specs::Packet::metadata_of, ground::specs::Choice::pick))]
fn metadata(packet: &[u8]) -> Metadata
    requires { Sized packet.now }
    ensures { result ≡ metadata_of packet.now }
{
    if flagged(packet) {
        metadata_words(packet)
    } else {
        Metadata::default()
    }
}

// What is read of a packet besides its payload's bytes.
#[tactic(auto, using(crate::proofs::Reading::length_payload, crate::proofs::Reading::low_half), unfolding(rules::specs::Packet::packet_of))]
pub fn fields(packet: &[u8]) -> Packet
    requires { Sized packet.now }
    ensures { result ≡ packet_of packet.now }
{
    Packet {
        header: header(packet),
        zerohalf: words::get(packet, 16) & 0xffff,
        metadata: metadata(packet),
        length: packet.len() as u32,
        payloadlength: payload(packet).len() as u32,
    }
}

// "header check".
#[tactic(auto, unfolding(rules::specs::Packet::header_checks))]
pub fn header_checks(packet: &[u8]) -> bool
    requires { Sized packet.now }
    ensures { result ≡ header_checks packet.now }
{
    let check = crate::header_check(packet, payload_from(packet));
    words::get(packet, 16) >> 16 == u32::from(check)
}

// "zero and reserved fields, meta_len as meta_cnt, ack is 20 bytes (H)".
#[tactic(auto, unfolding(rules::specs::Packet::fields_ok))]
pub fn fields_ok(p: Packet) -> bool
    ensures { result ≡ fields_ok p }
{
    let h = p.header;
    let zero_low = h.address1 & 0xf;
    let ack_pkt = (h.control0 >> 29) & 1 == 1;
    let reserved = (h.control0 >> 28) & 1;
    let zero_top = h.control1 >> 28;
    let flagged = crate::meta_flag(h.control1);
    let meta_len = (h.control1 >> 24) & 7;
    zero_low == 0
        && reserved == 0
        && zero_top == 0
        && p.zerohalf == 0
        && meta_len <= 4
        && (flagged || meta_len == 0)
        && (!ack_pkt || p.length == PLAIN_START as u32)
}

// "body check or its padding": one comparison of the last word; an empty payload has none.
#[tactic(auto, unfolding(rules::specs::Packet::body_checks))]
pub fn body_checks(packet: &[u8]) -> bool
    requires { Sized packet.now }
    ensures { result ≡ body_checks packet.now }
{
    let last = words::get(packet, packet.len() - 4);
    let check = checksum::of(payload(packet));
    packet.len() == payload_from(packet) || last == crate::check_word(check)
}
