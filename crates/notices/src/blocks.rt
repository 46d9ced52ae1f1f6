// The blocks of notice memory, reached by their addresses.
ghost use Rattle.std.specs.Prelude.{◌≡◌, ◌+◌, ◌≤◌, length};
ghost use Rattle.std.proofs.lemmas.List.Edits.{sets};
ghost use Rattle.ground.specs.Lists.{over};
ghost use Rattle.rules.specs.Memory.{block_size, block_first, next_of};
ghost use Rattle.rules.specs.Notices.{block_words};
ghost use Rattle.rules.specs.Calls.{words_of};
ghost use Rattle.notices.specs.Steps.{Pushable, Returns};

use rules::sizes::{BLOCK_SIZE, NBQR_FROM};
use rules::{BlockAddress, Notice, Saved};

// A block's word 0, as a number of notice memory.
pub(crate) fn block_first(b: BlockAddress) -> usize
    ensures { result ≡ block_first b }
{
    (b.0 / 4) as usize
}

// A block's next.
pub fn next_of(notices: &[u32], b: BlockAddress) -> u32
    requires { block_first b + block_size ≤ length notices.now }
    ensures { result ≡ next_of notices.now b }
{
    notices[block_first(b) + 3]
}

// A notice and its next, in a block.
pub(crate) fn fill_block(notices: &mut [u32], b: BlockAddress, n: Notice, next: u32)
    requires { block_first b + block_size ≤ length notices.old }
    ensures { notices.new ≡ sets notices.old (block_first b) (block_words n next) }
{
    let m = n.metadata;
    let row = [n.word0, n.word1, n.word2, next, m.a, m.b, m.c, m.d];
    words::copy(notices, block_first(b), &row);
}

// A block's eight words, to the start of a room.
pub(crate) fn copy_block(notices: &[u32], b: BlockAddress, room: &mut [u32])
    requires { (block_first b + block_size ≤ length notices.now) × (block_size ≤ length room.old) }
    ensures { room.new ≡ over (words_of notices.now b) room.old }
{
    let first = block_first(b);
    words::copy(room, 0, &notices[first..first + BLOCK_SIZE]);
}

// A block on NBQR.
#[tactic(auto, unfolding(rules::specs::Notices::push_nbqr))]
pub fn push_nbqr(b: BlockAddress, s: Saved, receive: &mut [u32]) -> Saved
    requires { Pushable s.nbqr receive.old }
    ensures { Returns b s receive.old result receive.new }
{
    let nbqr = s.nbqr.push(receive, NBQR_FROM, b.0);
    Saved { nbqr, ..s }
}
