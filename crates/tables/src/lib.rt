// The tables in the RAMs: descriptors and slots, each read and stored whole; when a descriptor may go; where a list's words stand.
#![tactic(auto)]

mod descriptors;
mod going;
mod lists;
mod slots;

ghost use Rattle.std.specs.Prelude.{◌≡◌, ◌+◌, ◌≤◌, length};
ghost use Rattle.rules.specs.Memory.{metadata_at};

pub use descriptors::{descriptor_at, store_descriptor};
pub use going::{go_rule, is_active};
pub use lists::{head_word, is_block, is_block_or_none, place_word, token_word};
use rules::Metadata;
pub use slots::{slot_at, store_slot};

// Four metadata words from word i of a RAM on. (Field by field, here and where they are stored: by a From of four words they would be no shorter.)
fn metadata_at(ram: &[u32], i: usize) -> Metadata
    requires { i + 4 ≤ length ram.now }
    ensures { result ≡ metadata_at ram.now i }
{
    Metadata {
        a: ram[i],
        b: ram[i + 1],
        c: ram[i + 2],
        d: ram[i + 3],
    }
}
