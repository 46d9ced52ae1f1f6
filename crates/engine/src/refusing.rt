// The call that is nothing but a refusal.
ghost use Rattle.std.specs.Prelude.{[], ◌≡◌};
ghost use Rattle.rules.specs.Calls.{unknown_call};
ghost use Rattle.laws.specs.Lent.{before, leaves};

use replies::refuse;
use rules::{Answer, Refusal, Saved};

// no-register: "unknown call".
pub fn unknown(s: Saved, send: &[u32], receive: &[u32], bytes: &[u8], notices: &[u32]) -> Answer
    ensures { leaves result send.now receive.now bytes.now notices.now []
        ≡ unknown_call (before s send.now receive.now bytes.now notices.now) }
{
    let why = match sound::gate(s, send, receive, bytes.len(), notices.len()) {
        Err(why) => why,
        Ok(()) => Refusal::NoRegister,
    };
    refuse(s, why)
}
