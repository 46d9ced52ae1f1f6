// The send.
ghost use Rattle.std.specs.Prelude.{◌≡◌};
ghost use Rattle.rules.specs.Calls.{send_call};
ghost use Rattle.laws.specs.Lent.{before, fills};

use rules::{Answer, Saved, Seen};

// A send, with the fabric ready or not, into a packet room.
pub fn send(
    s: Saved,
    send: &mut [u32],
    receive: &mut [u32],
    bytes: &[u8],
    notices: &mut [u32],
    ready: bool,
    room: &mut [u8],
) -> Answer
    ensures { fills result send.new receive.new bytes.now notices.new room.new
        ≡ send_call (before s send.old receive.old bytes.now notices.old) ready room.old }
{
    let m = Seen {
        saved: s,
        send,
        receive,
        bytes,
        notices,
    };
    let sending = sender::judge_send(&m, ready, room.len());
    sender::act_send(sending, s, send, receive, bytes, notices, room)
}
