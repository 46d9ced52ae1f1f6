// The go rule that register writes and soundness share, and which descriptors are active.
ghost use Rattle.std.specs.Prelude.{◌≡◌};
ghost use Rattle.rules.specs.Words.{meta_ok};
ghost use Rattle.rules.specs.Sending.{is_active, address_ok, message_size_ok, go_rule};

use rules::Descriptor;
use rules::sizes::{DIRECT_FROM, DIRECT_TO, LISTS, MOST24};

// Go 1 and done 0.
pub fn is_active(d: Descriptor) -> bool
    ensures { result ≡ is_active d }
{
    let go = d.control1 / 0x1000_0000 % 2 == 1;
    let done = d.status2 / 0x2000_0000 % 2 == 1;
    go & !done
}

// meta_cnt at most 4, and 0 without meta_data.
fn meta_ok(control1: u32) -> bool
    ensures { result ≡ meta_ok control1 }
{
    let meta_data = control1 / 0x800_0000 % 2 == 1;
    let meta_cnt = control1 / 0x100_0000 % 8;
    (meta_cnt <= 4) & (meta_data | (meta_cnt == 0))
}

// The message lies in data memory, or for direct_io in DIO.
fn address_ok(direct: bool, address: u32, size: u32, datalength: usize) -> bool
    ensures { result ≡ address_ok direct address size datalength }
{
    let end = address as usize + size as usize;
    if direct {
        (address % 4 == 0) & (DIRECT_FROM <= address) & (end <= DIRECT_TO)
    } else {
        end <= datalength
    }
}

// What the go rule asks of a size.
#[tactic(auto, unfolding(rules::specs::Sending::message_size_ok))]
fn message_size_ok(d: Descriptor, control1: u32, size: u32, datalength: usize) -> bool
    ensures { result ≡ message_size_ok d control1 size datalength }
{
    let offset = d.control0 % 0x100_0000;
    let direct_io = control1 / 0x8000_0000 % 2 == 1;
    (size % 4 == 0)
        & (offset as usize + size as usize <= MOST24 as usize)
        & address_ok(direct_io, d.msgaddress, size, datalength)
}

// The go rule, of a control1 word and a size: a write asks it of msg_size, soundness of bytes_to_go.
#[tactic(auto, unfolding(rules::specs::Sending::go_rule))]
pub fn go_rule(d: Descriptor, control1: u32, size: u32, datalength: usize) -> bool
    ensures { result ≡ go_rule d control1 size datalength }
{
    let reserved = d.control0 / 0x1000_0000 % 2;
    let ack_pkt = d.control0 / 0x2000_0000 % 2 == 1;
    let note_index = d.address1 % 0x1_0000;
    let control_pkt = control1 / 0x4000_0000 % 2 == 1;
    let notify = control1 / 0x2000_0000 % 2 == 1;
    let meta_data = control1 / 0x800_0000 % 2 == 1;
    // In the clause's order.
    meta_ok(control1)
        & (reserved == 0)
        & (!ack_pkt | (control_pkt & !meta_data))
        & (!notify | (note_index < LISTS))
        & (control_pkt | message_size_ok(d, control1, size, datalength))
}
