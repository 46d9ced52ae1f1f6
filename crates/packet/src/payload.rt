// Where a packet's payload comes from: bytes of data memory, or words of Send RAM.
// (A place stands beside the room: a lent room can't grow.)
ghost use Rattle.std.specs.Prelude.{ℕ, List, ◌≤◌, ◌+◌, length};
ghost use Rattle.ground.specs.Bytes.{to_bytes};
ghost use Rattle.packet.specs.Packet.{Stored};

// What can be stored as a packet's payload.
pub trait Payload {
    // Its bytes.
    ghost bytes: { Self → List ℕ };

    // Its bytes stored from place `at` on, and the place after them.
    fn put(self, room: &mut [u8], at: usize) -> usize
        requires { at + length (bytes self) ≤ length room.old }
        ensures { Stored (bytes self) at room.old room.new result };
}

impl Payload for &[u8] {
    ghost bytes = { λ payload. payload.now };

    fn put(self, room: &mut [u8], at: usize) -> usize {
        words::copy(room, at, self);
        at + self.len()
    }
}

impl Payload for &[u32] {
    ghost bytes = { λ payload. to_bytes payload.now };

    #[tactic(auto, using(ground::proofs::Bytes::row_length))]
    fn put(self, room: &mut [u8], at: usize) -> usize {
        words::copy_words(room, at, self);
        at + self.len() * 4
    }
}
