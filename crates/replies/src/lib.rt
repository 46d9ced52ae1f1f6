// The answer of a refusal.
#![tactic(auto)]

ghost use Rattle.replies.specs.Refusing.{Refuses};

use rules::{Answer, Refusal, Reply, Saved};

// "Every reply but done and fault is a refusal": the saved state as it was, no interrupt.
pub fn refuse(s: Saved, why: Refusal) -> Answer
    ensures { Refuses s why result }
{
    Answer {
        reply: Reply::Refused(why),
        interrupts: 0,
        saved: s,
    }
}
