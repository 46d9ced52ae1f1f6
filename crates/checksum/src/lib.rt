// "CRC-16, polynomial 0x1021, start 0xFFFF, unreflected, no final exclusive-or".
#![tactic(auto)]

ghost use Rattle.std.specs.Prelude.{◌≡◌};
ghost use Rattle.rules.specs.Checksum.{bit_step, bit_steps, byte_step, check_from, check_of};

// One bit.
#[tactic(auto, unfolding(rules::specs::Checksum::bit_step))]
fn shift_one(c: u16) -> u16
    ensures { result ≡ bit_step c }
{
    (c << 1) ^ ((c >> 15) * 0x1021)
}

// Eight shift steps. (A `for` over its range: a fold was tried, and the proof didn't close.)
#[tactic(auto, unfolding(rules::specs::Checksum::bit_steps))]
fn shift_eight(c: u16) -> u16
    ensures { result ≡ bit_steps 8 c }
{
    let mut x = c;
    for k in 0u32..8 {
        x = shift_one(x);
    }
    x
}

// One byte.
#[tactic(auto, unfolding(rules::specs::Checksum::byte_step))]
fn take_byte(c: u16, byte: u8) -> u16
    ensures { result ≡ byte_step c byte }
{
    shift_eight(c ^ (u16::from(byte) << 8))
}

// The check of some bytes, going on from `start`.
pub fn from(start: u16, bytes: &[u8]) -> u16
    ensures { result ≡ check_from start bytes.now }
{
    let mut c = start;
    for &byte in bytes {
        c = take_byte(c, byte);
    }
    c
}

// The check of some bytes.
pub fn of(bytes: &[u8]) -> u16
    ensures { result ≡ check_of bytes.now }
{
    from(0xffff, bytes)
}
