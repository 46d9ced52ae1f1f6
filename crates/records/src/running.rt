// A record after the other: each call on the machine that the last left, each line where the last ended.
ghost use Rattle.std.specs.Prelude.{◌+◌, ◌≤◌, length};
ghost use Rattle.lines.specs.Lines.{line_most};
ghost use Rattle.records.specs.Records.{machine_of, Keeps, Steps, Roomy, Runs, Parted};

use crate::calling;
use crate::machine::Lent;
use rules::sizes::RECORD_SIZE;

// One record: its call, and its line from place `at` of the output on. Where the line ends. (A place beside the room: it can't grow.)
fn step(m: &mut Lent<'_>, record: &[u8], out: &mut [u8], at: usize) -> usize
    requires { at + line_most ≤ length out.old }
    ensures keeps { Keeps m.old m.new }
    ensures steps { Steps (machine_of m.old) «record».now at out.old result (machine_of m.new) out.new }
{
    let a = calling::call(m, record);
    m.saved = a.saved;
    lines::put_line(out, at, calling::kind_of(record), a.reply, a.interrupts)
}

// All records of an input, the last one torn or whole, and their lines from the start of the output on. Where they end.
pub fn run(m: &mut Lent<'_>, input: &[u8], out: &mut [u8]) -> usize
    requires { Roomy input.now out.old }
    ensures keeps { Keeps m.old m.new }
    ensures runs { Runs (machine_of m.old) input.now out.old result (machine_of m.new) out.new }
{
    let mut next = 0;
    for record in input.chunks(RECORD_SIZE) {
        next = step(m, record, out, next);
    }
    next
}

// Reading the input in parts changes no line.
#[tactic(auto, using(crate::proofs::Rows::in_parts))]
pub fn in_parts()
    ensures { Parted }
{}
