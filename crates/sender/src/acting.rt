// A send that was judged, done: a packet goes out, or the chosen descriptor is marked stalled, or nothing changes. (The memories stay apart:
// `&mut` says which a send may write.)
ghost use Rattle.std.specs.Prelude.{Ok, length};
ghost use Rattle.sender.specs.Steps.{Packable, Packs, SendableFrom, Markable, Sendable, Acts, Marks};

use crate::{choosing, forming, moving};
use notices::post_all;
use replies::refuse;
use rules::sizes::DESCRIPTOR_SIZE;
use rules::{Answer, DescriptorIndex, Posting, Refusal, Reply, Saved, Sending};
use tables::{descriptor_at, store_descriptor};

// A packet that was formed: its length, and what it posts.
#[derive(Clone, Copy)]
struct Sent {
    length: u32,
    posting: Option<Posting>,
}

// The packet goes to the room, and the descriptor moves on.
fn send_packet(
    i: DescriptorIndex,
    node: u32,
    send: &mut [u32],
    bytes: &[u8],
    room: &mut [u8],
) -> Sent
    requires { Packable i node send.old (length bytes.now) (length room.old) }
    ensures { Packs i node send.old bytes.now room.old result send.new room.new }
{
    let d = descriptor_at(send, i);
    let length = forming::next_packet(node, d, send, bytes, room);
    store_descriptor(send, i, moving::after_packet(d));
    Sent {
        length: length as u32,
        posting: choosing::send_posting(d),
    }
}

// The packet, the last sender, and the notice that the packet posts; the value is the sent length.
#[tactic(auto, using(crate::proofs::Steps::post_asks), unfolding(rules::specs::Calls::act_send, rules::specs::Calls::sent, rules::specs::Calls::packet_from))]
fn act_sends(
    i: DescriptorIndex,
    s: Saved,
    send: &mut [u32],
    receive: &mut [u32],
    bytes: &[u8],
    notices: &mut [u32],
    room: &mut [u8],
) -> Answer
    requires { SendableFrom i s send.old receive.old (length bytes.now) (length notices.old) (length room.old) }
    ensures { Acts (Ok (Sending.Sends i)) s send.old receive.old bytes.now notices.old
        room.old result send.new receive.new notices.new room.new }
{
    let sent = send_packet(i, s.pcsr0 % 0x1_0000, send, bytes, room);
    let moved = Saved {
        lastsender: i.0,
        ..s
    };
    let posted = post_all(sent.posting, moved, receive, notices);
    Answer {
        reply: Reply::Done(sent.length),
        interrupts: posted.interrupts,
        saved: posted.saved,
    }
}

// status2 is word 6 of a descriptor.
const STATUS2_WORD: usize = 6;

// fabric: "stalled set on the chosen descriptor, no more".
#[tactic(auto, using(crate::proofs::Steps::marked))]
fn act_waits(i: DescriptorIndex, s: Saved, send: &mut [u32]) -> Answer
    requires { Markable i send.old }
    ensures { Marks i s send.old result send.new }
{
    let at = DESCRIPTOR_SIZE as usize * i.0 as usize + STATUS2_WORD;
    send[at] = moving::with_stalled(send[at]);
    refuse(s, Refusal::Fabric)
}

// By what was judged.
#[tactic(auto, using(crate::proofs::Steps::acts_no, crate::proofs::Steps::acts_waits))]
pub fn act_send(
    v: Result<Sending, Refusal>,
    s: Saved,
    send: &mut [u32],
    receive: &mut [u32],
    bytes: &[u8],
    notices: &mut [u32],
    room: &mut [u8],
) -> Answer
    requires { Sendable v s send.old receive.old (length bytes.now) (length notices.old) (length room.old) }
    ensures { Acts v s send.old receive.old bytes.now notices.old
        room.old result send.new receive.new notices.new room.new }
{
    match v {
        Err(why) => refuse(s, why),
        Ok(Sending::Sends(i)) => act_sends(i, s, send, receive, bytes, notices, room),
        Ok(Sending::Waits(i)) => act_waits(i, s, send),
    }
}
