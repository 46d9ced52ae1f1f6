// The numbers of the saved state that have a range.
ghost use Rattle.std.specs.Prelude.{◌≡◌, ◌≤◌};
ghost use Rattle.rules.specs.Memory.{receive_size};
ghost use Rattle.rules.specs.Saved.{pcsr0_ok};
ghost use Rattle.rules.specs.Registers.{pointer_ok};
ghost use Rattle.rules.specs.Sound.{registers_ok, queue_ok, queues_ok};

use rules::sizes::{DESCRIPTORS, QUEUE_SIZE, RECEIVE_SIZE, SEND_SIZE, SLOTS_MOST};
use rules::{Queue, Saved};

// PCSR0 without reserved bits or a node above 4095.
pub fn pcsr0_ok(w: u32) -> bool
    ensures { result ≡ pcsr0_ok w }
{
    let reserved = w / 0x10_0000 % 0x400;
    let node = w % 0x1_0000;
    (reserved == 0) & (node <= 4095)
}

// A pointer into a RAM of so many words.
pub fn pointer_ok(words: usize, p: u32) -> bool
    requires { words ≤ receive_size }
    ensures { result ≡ pointer_ok words p }
{
    (p % 4 == 0) & ((p as usize) < 4 * words)
}

// Every register is in its range.
#[tactic(auto, unfolding(rules::specs::Sound::registers_ok))]
pub(crate) fn registers_ok(s: Saved) -> bool
    ensures { result ≡ registers_ok s }
{
    let reset = s.pcsr0 / 0x8000_0000 % 2 == 1;
    !reset
        & pcsr0_ok(s.pcsr0)
        & (s.inthi <= 1)
        & (s.intlo <= 1)
        & (s.slots <= SLOTS_MOST)
        & pointer_ok(SEND_SIZE, s.sendpointer)
        & pointer_ok(RECEIVE_SIZE, s.receivepointer)
        & (s.lastsender < DESCRIPTORS)
}

// A place below 256 and a length of at most 256.
fn queue_ok(q: Queue) -> bool
    ensures { result ≡ queue_ok q }
{
    (q.place < QUEUE_SIZE) & (q.length <= QUEUE_SIZE)
}

// NQR, AQR and NBQR.
#[tactic(auto, unfolding(rules::specs::Sound::queues_ok))]
pub(crate) fn queues_ok(s: Saved) -> bool
    ensures { result ≡ queues_ok s }
{
    queue_ok(s.nqr) & queue_ok(s.aqr) & queue_ok(s.nbqr)
}
