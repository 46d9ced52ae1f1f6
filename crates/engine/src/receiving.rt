// The receive.
ghost use Rattle.std.specs.Prelude.{[], ◌≡◌};
ghost use Rattle.rules.specs.Calls.{receive_call};
ghost use Rattle.laws.specs.Lent.{before, leaves};

use rules::{Answer, Saved, Seen};

// A receipt of a packet.
pub fn receive(
    s: Saved,
    send: &[u32],
    receive: &mut [u32],
    bytes: &mut [u8],
    notices: &mut [u32],
    packet: &[u8],
) -> Answer
    ensures { leaves result send.now receive.new bytes.new notices.new []
        ≡ receive_call (before s send.now receive.old bytes.old notices.old) packet.now }
{
    let m = Seen {
        saved: s,
        send,
        receive,
        bytes,
        notices,
    };
    let receiving = receiver::judge_receive(&m, packet);
    receiver::act_receive(receiving, s, receive, bytes, notices, packet)
}
