// The checksum against values from outside: 123456789 is the check value of CRC-16/CCITT-FALSE, the others are Python's
// binascii.crc_hqx(bytes, 0xffff).
#![tactic(auto)]

use std::io;

// A name and the check of the bytes that it stands for, as a line.
fn line(rt: &impl Print, name: &str, bytes: &[u8]) -> io::Result<()> {
    let check = checksum::of(bytes);
    println!(rt; "{name}: {check:04x}")
}

// Each byte once, from 0 to 255.
fn every_byte() -> [u8; 256] {
    std::array::from_fn(|i| i as u8)
}

fn main(rt: HostRuntime) -> io::Result<()> {
    line(&rt, "123456789", b"123456789")?;
    line(&rt, "A", b"A")?;
    line(&rt, "no bytes", b"")?;
    line(&rt, "every byte", &every_byte())?;
    line(&rt, "128 zeros", &[0u8; 128])?;
    line(&rt, "four of 255", b"\xff\xff\xff\xff")
}
