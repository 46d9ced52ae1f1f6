// Replies 13 and 14: the sizes of the memories, and whether a machine is sound. Every function here only reads.
#![tactic(auto)]

mod descriptors;
mod lists;
mod registers;

ghost use Rattle.std.specs.Prelude.{◌≡◌, length};
ghost use Rattle.rules.specs.Memory.{sizes_ok};
ghost use Rattle.rules.specs.Sound.{sound_ok};
ghost use Rattle.laws.specs.Sound.{Sized};
ghost use Rattle.sound.specs.Gated.{Gated};

pub use registers::{pcsr0_ok, pointer_ok};
use rules::sizes::{BLOCK_SIZE, DATA_MOST, NOTICES_MOST, RECEIVE_SIZE, SEND_SIZE};
use rules::{Refusal, Saved};

// Each memory has its size, by the four lengths.
pub fn sizes_ok(
    sendlength: usize,
    receivelength: usize,
    datalength: usize,
    noticelength: usize,
) -> bool
    ensures { result ≡ sizes_ok sendlength receivelength datalength noticelength }
{
    (sendlength == SEND_SIZE)
        & (receivelength == RECEIVE_SIZE)
        & (datalength <= DATA_MOST)
        & (BLOCK_SIZE..=NOTICES_MOST).contains(&noticelength)
        & (noticelength % BLOCK_SIZE == 0)
}

// The machine is sound. The lists are scanned only once the queues are in range, so that no scan is longer than a queue.
#[tactic(auto, using(laws::proofs::Sound::rings), unfolding(rules::specs::Sound::sound_ok))]
pub fn sound_ok(
    s: Saved,
    send: &[u32],
    receive: &[u32],
    datalength: usize,
    noticelength: usize,
) -> bool
    requires { Sized (length send.now) (length receive.now) datalength noticelength }
    ensures { result ≡ sound_ok s send.now receive.now datalength noticelength }
{
    registers::registers_ok(s)
        && registers::queues_ok(s)
        && lists::heads_ok(receive, noticelength)
        && lists::places_ok(receive, noticelength)
        && lists::waiting_ok(receive, s.nbqr, noticelength)
        && descriptors::descriptors_ok(send, datalength)
}

// The first two rows of every call's refusals: sizes, unsound; or the call goes on. (Two memories by their lengths, and no `Seen`: whoever
// knows the lengths alone may ask.)
pub fn gate(
    s: Saved,
    send: &[u32],
    receive: &[u32],
    datalength: usize,
    noticelength: usize,
) -> Result<(), Refusal>
    ensures { Gated s send.now receive.now datalength noticelength result }
{
    if !sizes_ok(send.len(), receive.len(), datalength, noticelength) {
        return Err(Refusal::Sizes);
    }
    if !sound_ok(s, send, receive, datalength, noticelength) {
        return Err(Refusal::Unsound);
    }
    Ok(())
}
