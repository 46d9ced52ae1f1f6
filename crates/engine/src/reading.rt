// The read.
ghost use Rattle.std.specs.Prelude.{[], ◌≡◌};
ghost use Rattle.rules.specs.Calls.{read_call};
ghost use Rattle.laws.specs.Lent.{before, leaves};

use rules::{Answer, Saved, Seen};

// A read of the register with that number.
pub fn read(
    s: Saved,
    send: &[u32],
    receive: &[u32],
    bytes: &[u8],
    notices: &[u32],
    register: u32,
) -> Answer
    ensures { leaves result send.now receive.now bytes.now notices.now []
        ≡ read_call (before s send.now receive.now bytes.now notices.now) register }
{
    let m = Seen {
        saved: s,
        send,
        receive,
        bytes,
        notices,
    };
    let reached = registers::judge_read(&m, register);
    registers::act_read(registers::decode(register), reached, s, send, receive)
}
