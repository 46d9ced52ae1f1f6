// The sixteen reply words.
ghost use Rattle.std.specs.Prelude.{◌≡◌, ◌≤◌, [], get_or, length};
ghost use Rattle.rules.specs.Replies.{reply_number, reply_words};

use rules::{Refusal, Reply};

// The column "Word" of the reply table.
#[tactic(auto, unfolding(rules::specs::Replies::reply_words, ground::specs::Text::ascii))]
pub(crate) fn word_of(reply: Reply) -> &'static [u8]
    ensures word { result.now ≡ get_or reply_words (reply_number reply) [] }
    ensures short { length result.now ≤ 11 }
{
    match reply {
        Reply::Done(_) => b"done",
        Reply::Fault(_) => b"fault",
        Reply::Refused(Refusal::Sizes) => b"sizes",
        Reply::Refused(Refusal::Unsound) => b"unsound",
        Reply::Refused(Refusal::NoRegister) => b"no-register",
        Reply::Refused(Refusal::ReadOnly) => b"read-only",
        Reply::Refused(Refusal::Active) => b"active",
        Reply::Refused(Refusal::BadValue) => b"bad-value",
        Reply::Refused(Refusal::Off) => b"off",
        Reply::Refused(Refusal::Short) => b"short",
        Reply::Refused(Refusal::NoPacket) => b"no-packet",
        Reply::Refused(Refusal::Empty) => b"empty",
        Reply::Refused(Refusal::Full) => b"full",
        Reply::Refused(Refusal::Quiet) => b"quiet",
        Reply::Refused(Refusal::Stalled) => b"stalled",
        Reply::Refused(Refusal::Fabric) => b"fabric",
    }
}
