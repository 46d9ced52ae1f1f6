// Where a list's head, token and reader's place stand in Receive RAM, and what a block's address is.
// A `ListIndex` has no bound of its own: `list` of rules/specs/Memory makes one of any number, and what a descriptor would post names
// one whose range soundness alone knows.
ghost use Rattle.std.specs.Prelude.{◌≡◌, ◌<◌};
ghost use Rattle.rules.specs.Memory.{lists, head_word, token_word, place_word, is_block, is_block_or_none};

use rules::ListIndex;
use rules::sizes::{LISTS_FROM, PLACES_FROM};

// Where a list's head stands.
pub fn head_word(l: ListIndex) -> usize
    requires { l.0 < lists }
    ensures { result ≡ head_word l }
{
    LISTS_FROM as usize + 2 * l.0 as usize
}

// The token stands after the head.
pub fn token_word(l: ListIndex) -> usize
    requires { l.0 < lists }
    ensures { result ≡ token_word l }
{
    head_word(l) + 1
}

// Where a list's reader's place stands.
pub fn place_word(l: ListIndex) -> usize
    requires { l.0 < lists }
    ensures { result ≡ place_word l }
{
    PLACES_FROM as usize + l.0 as usize
}

// 0, or a block's address, in a notice memory of n words. One range for both, as 0 is a multiple of 32 too: the scans of Receive RAM take
// several words at a time.
pub fn is_block_or_none(n: usize, a: u32) -> bool
    ensures { result ≡ is_block_or_none n a }
{
    let last = (n.min(0x4000_0000) * 4).saturating_sub(32) as u32;
    (a % 32 == 0) & (a <= last)
}

// A block's address.
pub fn is_block(n: usize, a: u32) -> bool
    ensures { result ≡ is_block n a }
{
    (a != 0) & is_block_or_none(n, a)
}
