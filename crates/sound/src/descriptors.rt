// The descriptors: each that is active keeps the go rule. (Send RAM's size is asked for, and no type's: `lists` says why.)
ghost use Rattle.std.specs.Prelude.{◌≡◌, ◌<◌, length};
ghost use Rattle.rules.specs.Memory.{send_size, descriptors};
ghost use Rattle.rules.specs.Sending.{descriptor_at};
ghost use Rattle.rules.specs.Sound.{descriptor_ok, descriptors_ok};

use rules::DescriptorIndex;
use rules::sizes::DESCRIPTORS;
use tables::{descriptor_at, go_rule, is_active};

// A descriptor that is active keeps the go rule for its bytes_to_go.
#[tactic(auto, unfolding(rules::specs::Sound::descriptor_ok))]
fn descriptor_ok(send: &[u32], d: DescriptorIndex, datalength: usize) -> bool
    requires { (d.0 < descriptors) × (length send.now ≡ send_size) }
    ensures { result ≡ descriptor_ok datalength (descriptor_at send.now d) }
{
    let words = descriptor_at(send, d);
    !is_active(words) | go_rule(words, words.control1, words.bytestogo, datalength)
}

// All four.
pub(crate) fn descriptors_ok(send: &[u32], datalength: usize) -> bool
    requires { length send.now ≡ send_size }
    ensures { result ≡ descriptors_ok send.now datalength }
{
    (0..DESCRIPTORS).all(|d| descriptor_ok(send, DescriptorIndex(d), datalength))
}
