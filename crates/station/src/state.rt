// The station's state.
ghost use Rattle.std.specs.Prelude.{◌<◌};
ghost use Rattle.rules.specs.Station.{record_size};

use lines::LINE_MOST;
use rules::Saved;
use rules::sizes::{DATA_MOST, NOTICES_MOST, RECEIVE_SIZE, RECORD_SIZE, SEND_SIZE};

// All that one turn leaves to the next: the machine with the largest memories, the bytes that wait for the rest of their record at the end of
// the input's first record, how many they are, and how many were read. Less than a record waits.
#[derive(Drop)]
pub(crate) struct Station {
    pub(crate) saved: Saved,
    pub(crate) send: [u32; SEND_SIZE],
    pub(crate) receive: [u32; RECEIVE_SIZE],
    pub(crate) bytes: [u8; DATA_MOST],
    pub(crate) notices: [u32; NOTICES_MOST],
    // 255 records behind what waits; as many lines, and one.
    pub(crate) input: [u8; 256 * RECORD_SIZE],
    pub(crate) out: [u8; 256 * LINE_MOST],
    pub(crate) count: u64,
    pub(crate) kept: usize,
    ghost less: { kept < record_size },
}
