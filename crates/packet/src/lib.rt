// "Packet": formed in a lent room, read from a lent slice, its payload landed in data memory.
#![tactic(auto)]

ghost use Rattle.std.specs.Prelude.{◌≡◌, ◌*◌, ◌^◌};
ghost use Rattle.rules.specs.Checksum.{check_of};
ghost use Rattle.rules.specs.Packet.{header_covered};
ghost use Rattle.rules.specs.Words.{meta_flag};
ghost use Rattle.packet.specs.Packet.{Inside};

use rules::sizes::PLAIN_START;

pub mod form;
pub mod land;
pub mod payload;
pub mod read;

// The meta flag of word 3.
fn meta_flag(control1: u32) -> bool
    ensures { result ≡ meta_flag control1 }
{
    (control1 >> 27) & 1 == 1
}

// "Header check covers bytes 0 to 15 and metadata": the metadata stands between word 4 and the payload.
// (`from` is where that begins: both parts stand in one slice.)
fn header_check(bytes: &[u8], from: usize) -> u16
    requires { Inside from bytes.now }
    ensures { result ≡ check_of (header_covered from bytes.now) }
{
    let first = checksum::of(&bytes[..16]);
    checksum::from(first, &bytes[PLAIN_START..from])
}

// The word of a check: "check 16, zero 16".
fn check_word(check: u16) -> u32
    ensures { result ≡ check * 2 ^ 16 }
{
    u32::from(check) << 16
}
