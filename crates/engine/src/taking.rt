// The take.
ghost use Rattle.std.specs.Prelude.{◌≡◌};
ghost use Rattle.rules.specs.Calls.{take_call};
ghost use Rattle.laws.specs.Lent.{before, fills};

use rules::{Answer, Saved, Seen};

// A take from the list with that number, into a notice room.
pub fn take(
    s: Saved,
    send: &[u32],
    receive: &mut [u32],
    bytes: &[u8],
    notices: &mut [u32],
    list: u32,
    room: &mut [u32],
) -> Answer
    ensures { fills result send.now receive.new bytes.now notices.new room.new
        ≡ take_call (before s send.now receive.old bytes.now notices.old) list room.old }
{
    let m = Seen {
        saved: s,
        send,
        receive,
        bytes,
        notices,
    };
    let taking = notices::judge_take(&m, list, room.len());
    notices::act_take(taking, s, receive, notices, room)
}
