// "Each line: kind, word, value as 8 lowercase hex digits, interrupts", as bytes of a lent buffer.
#![tactic(auto)]

mod digits;
mod reply_words;

ghost use Rattle.std.specs.Prelude.{◌+◌, ◌≤◌, length};
ghost use Rattle.rules.specs.Replies.{reply_number, reply_value};
ghost use Rattle.rules.specs.Station.{line_of};
ghost use Rattle.lines.specs.Lines.{Written, line_most};

use rules::Reply;

// A line's bytes at most, as specs/Lines has them.
pub const LINE_MOST: usize = 29;

// Bytes from place `at` on, and the place after them. (By hand: `digits` says why.)
fn put_bytes(out: &mut [u8], at: usize, bytes: &[u8]) -> usize
    requires { at + length bytes.now ≤ length out.old }
    ensures { Written bytes.now at out.old out.new result }
{
    words::copy(out, at, bytes);
    at + bytes.len()
}

// A line from place `at` on, and the place after it. (A place beside a slice, since a lent room can't grow. The kind stays a number: a line
// prints whatever byte its record has.)
pub fn put_line(out: &mut [u8], at: usize, kind: u8, reply: Reply, interrupts: u32) -> usize
    requires { at + line_most ≤ length out.old }
    ensures written { Written (line_of kind (reply_number reply) (reply_value reply) interrupts) at out.old out.new result }
    ensures upper_bound { result ≤ at + line_most }
{
    let kind_end = digits::put_decimal(out, at, u32::from(kind), b' ');
    let word_end = put_bytes(out, kind_end, reply_words::word_of(reply));
    let value_end = digits::put_hexadecimal(out, word_end, reply.value());
    digits::put_decimal(out, value_end, interrupts, b'\n')
}
