// The block addresses in Receive RAM: heads, reader's places and waiting blocks, each held against `n`, the words of notice memory. The RAMs'
// sizes are asked for, here and above, and are no type's: the calls take slices of any length, and C lends them.
// The scans fold, since one that goes on to the end takes several words at a time: `all` costs a receipt 787 instructions more.
ghost use Rattle.std.specs.Prelude.{◌≡◌, length};
ghost use Rattle.rules.specs.Memory.{receive_size};
ghost use Rattle.rules.specs.Sound.{heads_ok, places_ok, waiting_ok};
ghost use Rattle.laws.specs.Sound.{Ring};

use rules::sizes::{LISTS, NBQR_FROM, QUEUE_SIZE};
use rules::{ListIndex, Queue};
use tables::{head_word, is_block, is_block_or_none, place_word};

// Each list's head is 0 or a block.
pub(crate) fn heads_ok(receive: &[u32], n: usize) -> bool
    requires { length receive.now ≡ receive_size }
    ensures { result ≡ heads_ok receive.now n }
{
    (0..LISTS).fold(
        true,
        |ok, l| ok & is_block_or_none(n, receive[head_word(ListIndex(l))]),
    )
}

// Each list's reader's place is 0 or a block. (One function for both, given which word, is no plainer: its contract needs that word's.)
pub(crate) fn places_ok(receive: &[u32], n: usize) -> bool
    requires { length receive.now ≡ receive_size }
    ensures { result ≡ places_ok receive.now n }
{
    (0..LISTS).fold(
        true,
        |ok, l| ok & is_block_or_none(n, receive[place_word(ListIndex(l))]),
    )
}

// Every block that waits in NBQR is one.
pub(crate) fn waiting_ok(receive: &[u32], q: Queue, n: usize) -> bool
    requires { Ring q × (length receive.now ≡ receive_size) }
    ensures { result ≡ waiting_ok receive.now q n }
{
    (0..q.length).fold(true, |ok, k| {
        ok & is_block(
            n,
            receive[NBQR_FROM + ((q.place + k) % QUEUE_SIZE) as usize],
        )
    })
}
