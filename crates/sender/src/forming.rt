// The next packet of a descriptor, formed in the packet room.
ghost use Rattle.std.specs.Prelude.{◌≡◌, ◌≤◌, ◌<◌, ◌+◌, length};
ghost use Rattle.ground.specs.Lists.{part};
ghost use Rattle.rules.specs.Sending.{next_header, next_packet};
ghost use Rattle.packet.specs.Packet.{Formed};
ghost use Rattle.sender.specs.Steps.{Formable};

use crate::choosing;
use packet::form;
use rules::{Descriptor, Header};

// Words 0 to 3: address0, the slot and this node, control0, and of control1 the flag, the count and the size.
#[tactic(auto, unfolding(rules::specs::Sending::next_header))]
fn next_header(node: u32, d: Descriptor) -> Header
    requires { node ≤ 4095 }
    ensures { result ≡ next_header node d }
{
    let dst_slot = d.address1 / 0x1_0000 % 0x1_0000;
    Header {
        address0: d.address0,
        address1: dst_slot * 0x1_0000 + node * 16,
        control0: d.control0,
        control1: d.control1 % 0x1000_0000,
    }
}

// The n bytes of data memory from msg_address on. No bytes have no place: control_pkt asks nothing of msg_address.
fn bytes_from(d: Descriptor, n: usize, bytes: &[u8]) -> &[u8]
    requires { 0 < n → d.msgaddress + n ≤ length bytes.now }
    ensures { result.now ≡ part d.msgaddress n bytes.now }
{
    if n == 0 {
        return &bytes[..0];
    }
    let first = d.msgaddress as usize;
    &bytes[first..first + n]
}

// The packet, and its length. (One call for each kind of payload, so that each can be inlined.)
#[tactic(auto, using(ground::proofs::Choice::branches, ground::proofs::Bytes::row_length, ground::proofs::Lists::length_part), unfolding(rules::specs::Sending::next_packet, rules::specs::Sending::next_bytes))]
pub(crate) fn next_packet(
    node: u32,
    d: Descriptor,
    send: &[u32],
    bytes: &[u8],
    room: &mut [u8],
) -> usize
    requires { Formable node d (length send.now) (length bytes.now) (length room.old) }
    ensures { Formed (next_packet node d send.now bytes.now) room.old room.new result }
{
    let header = next_header(node, d);
    let metadata = d.metadata;
    let n = choosing::next_payload(d) as usize;
    let direct_io = d.control1 / 0x8000_0000 % 2 == 1;
    if (n != 0) & direct_io {
        let first = (d.msgaddress / 4) as usize;
        form::packet(room, header, metadata, &send[first..first + n / 4])
    } else {
        form::packet(room, header, metadata, bytes_from(d, n, bytes))
    }
}
