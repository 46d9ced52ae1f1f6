// A reset: Receive RAM, notice memory and descriptors are cleared; DIO and data memory stay.
// (Memories and sizes stay as `acting` and `sound::lists` say.)
ghost use Rattle.std.specs.Prelude.{◌≡◌, length};
ghost use Rattle.ground.specs.Lists.{over};
ghost use Rattle.rules.specs.Memory.{send_size};
ghost use Rattle.rules.specs.Saved.{reset_saved};
ghost use Rattle.rules.specs.Writes.{clear_descriptors};
ghost use Rattle.registers.specs.Writing.{Rams, Resets};

use rules::Saved;
use rules::sizes::{DESCRIPTOR_SIZE, DESCRIPTORS};

// A descriptor's words after it: status2 is done, the others are 0.
const CLEAR_DESCRIPTOR: [u32; 16] = [0, 0, 0, 0, 0, 0, 0x2000_0000, 0, 0, 0, 0, 0, 0, 0, 0, 0];

// All four descriptors.
#[tactic(auto, using(crate::proofs::Cleared::clearing))]
fn clear_descriptors(send: &mut [u32])
    requires { length send.old ≡ send_size }
    ensures { send.new ≡ over clear_descriptors send.old }
{
    // By number, since of a loop over chunks that it writes a proof knows the length alone.
    for d in 0..DESCRIPTORS {
        words::copy(send, (DESCRIPTOR_SIZE * d) as usize, &CLEAR_DESCRIPTOR);
    }
}

// The saved state after a reset, where PCSR0 is stored as w.
fn reset_saved(w: u32) -> Saved
    ensures { result ≡ reset_saved w }
{
    Saved {
        pcsr0: w,
        lastsender: 3,
        ..Saved::default()
    }
}

// The whole reset, by the word written to PCSR0.
#[tactic(auto, using(crate::proofs::Cleared::resets))]
pub(crate) fn reset(v: u32, send: &mut [u32], receive: &mut [u32], notices: &mut [u32]) -> Saved
    requires { Rams (length send.old) (length receive.old) }
    ensures { Resets v send.old receive.old notices.old result
        send.new receive.new notices.new }
{
    clear_descriptors(send);
    receive.fill(0);
    notices.fill(0);
    reset_saved(v % 0x8000_0000)
}
