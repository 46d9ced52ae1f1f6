// "payload to base plus offset".
ghost use Rattle.std.specs.Prelude.{◌≡◌, ◌+◌};
ghost use Rattle.std.proofs.lemmas.List.Edits.{sets};
ghost use Rattle.rules.specs.Packet.{payload_of};
ghost use Rattle.packet.specs.Packet.{Landing};

// The packet's payload copied to data memory.
pub fn payload(bytes: &mut [u8], base: u32, offset: u32, packet: &[u8])
    requires { Landing packet.now (base + offset) bytes.old }
    ensures { bytes.new ≡ sets bytes.old (base + offset) (payload_of packet.now) }
{
    words::copy(
        bytes,
        base as usize + offset as usize,
        crate::read::payload(packet),
    );
}
