// The machine that the station begins with.
ghost use Rattle.laws.specs.Lent.{after};
ghost use Rattle.records.specs.Records.{Opens};

use rules::Saved;
use rules::sizes::PCSR0_NUMBER;

// "then reset by writing 0x80000000 to PCSR0": over the memories as they are lent. (They stay apart: data memory is for
// reading alone.)
#[tactic(auto, unfolding(rules::specs::Calls::perform))]
pub fn open(send: &mut [u32], receive: &mut [u32], bytes: &[u8], notices: &mut [u32]) -> Saved
    ensures { Opens send.old receive.old bytes.now notices.old
        (after result send.new receive.new bytes.now notices.new) }
{
    let s = Saved {
        lastsender: 3,
        ..Saved::default()
    };
    let a = engine::write(s, send, receive, bytes, notices, PCSR0_NUMBER, 0x8000_0000);
    a.saved
}
