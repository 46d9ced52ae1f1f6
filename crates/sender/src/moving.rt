// What a packet leaves of its descriptor.
ghost use Rattle.std.specs.Prelude.{◌≡◌};
ghost use Rattle.rules.specs.Sending.{after_packet, with_stalled, without_stalled, with_done};
ghost use Rattle.sender.specs.Steps.{Movable};

use crate::choosing;
use rules::Descriptor;

// stalled cleared.
fn without_stalled(status2: u32) -> u32
    ensures { result ≡ without_stalled status2 }
{
    status2 / 0x8000_0000 * 0x8000_0000 + status2 % 0x4000_0000
}

// stalled set.
pub(crate) fn with_stalled(status2: u32) -> u32
    ensures { result ≡ with_stalled status2 }
{
    without_stalled(status2) + 0x4000_0000
}

// done set.
fn with_done(status2: u32) -> u32
    ensures { result ≡ with_done status2 }
{
    status2 / 0x4000_0000 * 0x4000_0000 + status2 % 0x2000_0000 + 0x2000_0000
}

// stalled clears; after the last packet done is set.
#[tactic(auto, using(ground::proofs::Choice::branches), unfolding(rules::specs::Sending::after_packet))]
fn status_after(d: Descriptor) -> u32
    ensures { result ≡ (after_packet d).status2 }
{
    let clear = without_stalled(d.status2);
    if choosing::is_last(d) {
        with_done(clear)
    } else {
        clear
    }
}

// "msg_address and offset rise and bytes_to_go falls by the payload; use bits, meta_data and meta_cnt go to 0; stalled clears."
#[tactic(auto, unfolding(rules::specs::Sending::after_packet))]
pub(crate) fn after_packet(d: Descriptor) -> Descriptor
    requires { Movable d }
    ensures { result ≡ after_packet d }
{
    let n = choosing::next_payload(d);
    Descriptor {
        msgaddress: d.msgaddress + n,
        control0: d.control0 % 0x4000_0000 + n,
        bytestogo: d.bytestogo - n,
        control1: d.control1 / 0x1000_0000 * 0x1000_0000 + d.control1 % 0x100_0000,
        status2: status_after(d),
        ..d
    }
}
