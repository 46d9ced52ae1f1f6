// What is done with the bytes at hand, without a read or a write: their records are answered, and the rest waits where the next bytes come.
ghost use Rattle.std.specs.Prelude.{◌≡◌, ◌-◌, ◌+◌, ◌≤◌, length};
ghost use Rattle.ground.specs.Lists.{part};
ghost use Rattle.rules.specs.Station.{record_size};
ghost use Rattle.station.specs.Turns.{answered_to, hand_in, waiting_in, machine_in, Begins, Answers};

use crate::state::Station;
use records::Lent;
use rules::sizes::RECORD_SIZE;

// So many of the bytes at hand are answered: the whole records, and at the end of the input a torn one too.
#[tactic(auto, using(crate::proofs::Hand::at_the_end, crate::proofs::Hand::before_the_end))]
fn answered_to(n: usize, filled: usize) -> usize
    ensures { result ≡ answered_to n filled }
{
    if n == 0 {
        filled
    } else {
        filled - filled % RECORD_SIZE
    }
}

// The bytes from one place to another, less than a record, go where they wait, by way of a room of their own; how many they are.
// (Places: the bytes move within one room.)
fn keep(input: &mut [u8], from: usize, to: usize) -> usize
    requires { Begins input.old from to }
    ensures value { result ≡ to - from }
    ensures from_after { waiting_in input.new (to - from) ≡ part from (to - from) input.old }
{
    let n = to - from;
    let mut rest = [0u8; RECORD_SIZE];
    words::copy(&mut rest, 0, &input[from..to]);
    words::copy(input, RECORD_SIZE - n, &rest[..n]);
    n
}

impl Station {
    // So many bytes wait at the input's front, and so many came behind them. Where the lines end.
    pub(crate) fn answer(&mut self, n: usize) -> usize
        requires { record_size + n ≤ length self.old.input }
        ensures answers { Answers (machine_in self.old) n (hand_in self.old.input self.old.kept n) result self.new }
        ensures count_unchanged { self.new.count ≡ self.old.count }
    {
        let start = RECORD_SIZE - self.kept;
        let end = start + answered_to(n, self.kept + n);
        let input: &[u8] = &self.input;
        let hand = &input[start..end];
        let mut m = Lent {
            saved: self.saved,
            send: &mut self.send,
            receive: &mut self.receive,
            bytes: &mut self.bytes,
            notices: &mut self.notices,
        };
        let next = records::run(&mut m, hand, &mut self.out);
        self.saved = m.saved;
        let left = keep(&mut self.input, end, RECORD_SIZE + n);
        self.kept = left;
        next
    }
}
