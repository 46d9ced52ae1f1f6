// Words and bytes read and written. Words are little-endian there; bytes are followed by zeros to a multiple of 4.
ghost use Rattle.std.specs.Prelude.{◌*◌, ◌≤◌, length};

use std::io::{self, Read, Write};

// So many words go by way of a page.
pub(crate) const PAGE_WORDS: usize = 4096;

// Its bytes.
pub(crate) type Page = [u8; 4 * PAGE_WORDS];

// The words of a page.
fn load(words: &mut [u32], page: &[u8])
    requires { length words.old * 4 ≤ length page.now }
{
    for (i, word) in words.iter_mut().enumerate() {
        *word = words::get(page, i * 4).swap_bytes();
    }
}

// Words to a page.
fn store(page: &mut [u8], words: &[u32])
    requires { length words.now * 4 ≤ length page.old }
{
    for (i, &word) in words.iter().enumerate() {
        words::put(page, i * 4, word.swap_bytes());
    }
}

// Reads as many words as there is room for.
pub(crate) fn read_words(
    from: &mut impl Read,
    words: &mut [u32],
    page: &mut Page,
) -> io::Result<()> {
    for part in words.chunks_mut(PAGE_WORDS) {
        let bytes = &mut page[..part.len() * 4];
        from.read_exact(bytes)?;
        load(part, bytes);
    }
    Ok(())
}

// Writes words.
pub(crate) fn write_words(to: &mut impl Write, words: &[u32], page: &mut Page) -> io::Result<()> {
    for part in words.chunks(PAGE_WORDS) {
        let bytes = &mut page[..part.len() * 4];
        store(bytes, part);
        to.write_all(bytes)?;
    }
    Ok(())
}

// So many zeros follow n bytes.
fn padding(n: usize) -> usize
    ensures { result ≤ 3 }
{
    (4 - n % 4) % 4
}

// Reads as many bytes as there is room for, and the zeros behind them.
pub(crate) fn read_bytes(from: &mut impl Read, bytes: &mut [u8]) -> io::Result<()> {
    let mut zeros = [0u8; 3];
    let n = padding(bytes.len());
    from.read_exact(bytes)?;
    from.read_exact(&mut zeros[..n])
}

// Writes bytes, and the zeros behind them.
pub(crate) fn write_bytes(to: &mut impl Write, bytes: &[u8]) -> io::Result<()> {
    let zeros = [0u8; 3];
    let n = padding(bytes.len());
    to.write_all(bytes)?;
    to.write_all(&zeros[..n])
}
