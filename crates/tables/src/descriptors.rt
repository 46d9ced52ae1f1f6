// The four send descriptors, 16 words each from word 0 of Send RAM on.
// (Number and size are asked for in each contract: `lists` and `sound::lists` say why.)
ghost use Rattle.std.specs.Prelude.{◌≡◌, ◌<◌, length};
ghost use Rattle.rules.specs.Memory.{send_size, descriptors};
ghost use Rattle.rules.specs.Sending.{descriptor_at, store_descriptor};

use crate::metadata_at;
use rules::sizes::DESCRIPTOR_SIZE;
use rules::{Descriptor, DescriptorIndex};

// Words 0 to 6 and 8 to 11 of a descriptor.
#[tactic(auto, unfolding(rules::specs::Sending::descriptor_at))]
pub fn descriptor_at(send: &[u32], d: DescriptorIndex) -> Descriptor
    requires { (d.0 < descriptors) × (length send.now ≡ send_size) }
    ensures { result ≡ descriptor_at send.now d }
{
    let first = DESCRIPTOR_SIZE as usize * d.0 as usize;
    Descriptor {
        msgaddress: send[first],
        address0: send[first + 1],
        address1: send[first + 2],
        control0: send[first + 3],
        bytestogo: send[first + 4],
        control1: send[first + 5],
        status2: send[first + 6],
        metadata: metadata_at(send, first + 8),
    }
}

// Words 0 to 6 stored: all that a go and a packet change.
#[tactic(auto, unfolding(rules::specs::Sending::store_descriptor))]
pub fn store_descriptor(send: &mut [u32], d: DescriptorIndex, v: Descriptor)
    requires { (d.0 < descriptors) × (length send.old ≡ send_size) }
    ensures { send.new ≡ store_descriptor send.old d v }
{
    let row = [
        v.msgaddress,
        v.address0,
        v.address1,
        v.control0,
        v.bytestogo,
        v.control1,
        v.status2,
    ];
    words::copy(send, DESCRIPTOR_SIZE as usize * d.0 as usize, &row);
}
