// The station between its reads and writes: how it begins, what a read puts in its room, and what a turn makes of bytes that came.
ghost use Rattle.std.specs.Prelude.{◌≡◌, ◌+◌, ◌≤◌, length, take};
ghost use Rattle.rules.specs.Station.{record_size};
ghost use Rattle.station.specs.Turns.{Zeros, Begun, held, came_in, Turnable, Turned, InTurns};

use crate::state::Station;
use lines::LINE_MOST;
use rules::Saved;
use rules::sizes::{DATA_MOST, NOTICES_MOST, RECEIVE_SIZE, RECORD_SIZE, SEND_SIZE};
use std::io::Read;

impl Station {
    // Memories of zeros. (`begin` goes on from here in place: a station handed back by it would be copied once more.)
    pub(crate) fn zeros() -> Self
        ensures { Zeros result }
    {
        Station {
            saved: Saved::default(),
            send: [0; SEND_SIZE],
            receive: [0; RECEIVE_SIZE],
            bytes: [0; DATA_MOST],
            notices: [0; NOTICES_MOST],
            input: [0; 256 * RECORD_SIZE],
            out: [0; 256 * LINE_MOST],
            count: 0,
            kept: 0,
        }
    }

    // The opening reset over memories of zeros; no byte waits, and none was read.
    pub(crate) fn begin(&mut self)
        requires { Zeros self.old }
        ensures { Begun self.new }
    {
        self.saved = records::open(
            &mut self.send,
            &mut self.receive,
            &self.bytes,
            &mut self.notices,
        );
        // `Zeros` speaks of the memories alone.
        self.kept = 0;
        self.count = 0;
    }

    // Reads what is at hand behind the input's first record, where bytes may wait, and says how many bytes came: 0 at the end of the input,
    // and where a read fails.
    pub(crate) fn read_on(&mut self, from: &mut impl Read) -> usize
        ensures result_in_bounds { record_size + result ≤ length self.new.input }
        ensures input_unchanged { take record_size self.new.input ≡ take record_size self.old.input }
        ensures held_unchanged { held self.new ≡ held self.old }
        ensures count_unchanged { self.new.count ≡ self.old.count }
    {
        let input: &mut [u8] = &mut self.input;
        from.read(&mut input[RECORD_SIZE..]).unwrap_or(0)
    }

    // So many bytes came: with those that wait before them the records at hand are answered, and the rest waits. Where the lines end.
    pub(crate) fn turn(&mut self, n: usize) -> usize
        requires { Turnable self.old n }
        ensures { Turned (held self.old) self.old.count (came_in self.old.input n) result (held self.new) self.new.count self.new.out }
    {
        let next = self.answer(n);
        self.count += n as u64;
        next
    }
}

// However the reads cut the input, the turns write the station's lines.
#[tactic(auto, using(crate::proofs::Turns::in_turns))]
fn in_turns()
    ensures { InTurns }
{}
