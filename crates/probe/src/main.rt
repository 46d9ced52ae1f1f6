// The probe: raw cases from standard input, single calls on any state (tests/vectors/README.md has the format), and all that each leaves to
// standard output. It ends at the end of the input and at a case beyond its rooms.
#![tactic(auto)]

mod bytes;
mod contents;

use bytes::{PAGE_WORDS, Page, read_words, write_words};
use contents::{HEAD_WORDS, Rooms};
use std::io::{Read, Write};

// The next case is answered in parts of the rooms; None where there is none, or none that they hold.
fn answer_case(
    from: &mut impl Read,
    to: &mut impl Write,
    rooms: &mut Rooms,
    page: &mut Page,
) -> Option<()> {
    let mut head = [0u32; HEAD_WORDS];
    read_words(from, &mut head, page).ok()?;
    let mut contents = rooms.cut(&head)?;
    contents.read(from, page).ok()?;
    let answer = contents.call(head[0], head[1], head[2]);
    write_words(to, &answer, page)
        .and(contents.write(to, page))
        .ok()
}

fn main(rt: HostRuntime) {
    let mut from = rt.stdin();
    let mut to = rt.stdout();
    let mut rooms = Rooms::new();
    let mut page = [0u8; 4 * PAGE_WORDS];
    // More cases than any input has.
    for _ in 0..u64::MAX {
        if answer_case(&mut from, &mut to, &mut rooms, &mut page).is_none() {
            break;
        }
    }
}
