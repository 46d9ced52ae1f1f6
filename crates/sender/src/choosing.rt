// Which descriptor sends: the next packet that each would send, what that posts, and the first that is ready.
// (Send RAM's size is asked for, and no type's: `sound::lists` says why.)
ghost use Rattle.std.specs.Prelude.{◌≡◌, length};
ghost use Rattle.rules.specs.Memory.{send_size};
ghost use Rattle.rules.specs.Sending.{descriptor_at, is_last, send_posting, is_ready, next_sender, none_active};
ghost use Rattle.laws.specs.Lent.{seen};
ghost use Rattle.sender.specs.Steps.{Payload, Askable, Choosable};

use rules::sizes::{DESCRIPTORS, PAYLOAD_MOST};
use rules::{Descriptor, DescriptorIndex, ListIndex, Notice, Posting, Seen};
use tables::{descriptor_at, is_active};

// "Payload is the next 128 bytes or the rest; control_pkt sends none."
#[tactic(auto, using(ground::proofs::Choice::branches), unfolding(rules::specs::Sending::next_payload))]
pub(crate) fn next_payload(d: Descriptor) -> u32
    ensures { Payload d result }
{
    let control_pkt = d.control1 / 0x4000_0000 % 2 == 1;
    if control_pkt {
        return 0;
    }
    d.bytestogo.min(PAYLOAD_MOST)
}

// The next packet is the last: control_pkt, or all that is left fits.
#[tactic(auto, unfolding(rules::specs::Sending::is_last))]
pub(crate) fn is_last(d: Descriptor) -> bool
    ensures { result ≡ is_last d }
{
    let control_pkt = d.control1 / 0x4000_0000 % 2 == 1;
    control_pkt | (d.bytestogo <= PAYLOAD_MOST)
}

// With notify, the last packet posts a zero notice to note_index.
#[tactic(auto, using(ground::proofs::Choice::branches), unfolding(rules::specs::Sending::send_posting))]
pub(crate) fn send_posting(d: Descriptor) -> Option<Posting>
    ensures { result ≡ send_posting d }
{
    let notify = d.control1 / 0x2000_0000 % 2 == 1;
    if is_last(d) & notify {
        Some(Posting {
            list: ListIndex(d.address1 % 0x1_0000),
            notice: Notice::default(),
        })
    } else {
        None
    }
}

// "A descriptor is ready if active and any notice its next packet would post can be posted."
#[tactic(auto, unfolding(rules::specs::Sending::is_ready))]
fn is_ready(m: &Seen<'_>, i: DescriptorIndex) -> bool
    requires { Askable i (seen m.now) }
    ensures { result ≡ is_ready m.now.saved m.now.receive.now (descriptor_at m.now.send.now i) }
{
    let d = descriptor_at(m.send, i);
    is_active(d) && notices::can_post_all(m.saved, m.receive, send_posting(d))
}

// "Starting after the last sender and going round, the first ready descriptor met in that order sends." Document 01 names the form: a loop
// over four places that yields the descriptor by break, or none.
#[tactic(auto, using(crate::proofs::Choice::none_left, crate::proofs::Choice::met, crate::proofs::Choice::passed), unfolding(rules::specs::Sending::next_sender))]
pub(crate) fn next_sender(m: &Seen<'_>) -> Option<DescriptorIndex>
    requires { Choosable (seen m.now) }
    ensures { result ≡ next_sender m.now.saved m.now.send.now m.now.receive.now }
{
    'search: {
        for k in 0..DESCRIPTORS {
            let d = DescriptorIndex((m.saved.lastsender + 1 + k) % DESCRIPTORS);
            if is_ready(m, d) {
                break 'search Some(d);
            }
        }
        None
    }
}

// quiet: "none active".
pub(crate) fn none_active(send: &[u32]) -> bool
    requires { length send.now ≡ send_size }
    ensures { result ≡ none_active send.now }
{
    (0..DESCRIPTORS).all(|d| !is_active(descriptor_at(send, DescriptorIndex(d))))
}
