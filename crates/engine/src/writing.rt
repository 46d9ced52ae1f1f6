// The write.
ghost use Rattle.std.specs.Prelude.{[], ◌≡◌};
ghost use Rattle.rules.specs.Calls.{write_call};
ghost use Rattle.laws.specs.Lent.{before, leaves};

use rules::{Answer, Saved, Seen};

// A write of a value to the register with that number.
pub fn write(
    s: Saved,
    send: &mut [u32],
    receive: &mut [u32],
    bytes: &[u8],
    notices: &mut [u32],
    register: u32,
    value: u32,
) -> Answer
    ensures { leaves result send.new receive.new bytes.now notices.new []
        ≡ write_call (before s send.old receive.old bytes.now notices.old) register value }
{
    let m = Seen {
        saved: s,
        send,
        receive,
        bytes,
        notices,
    };
    let writing = registers::judge_write(&m, register, value);
    registers::act_write(writing, s, send, receive, notices, register, value)
}
