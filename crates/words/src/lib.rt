// "Words are big-endian": words read from bytes and stored in them, copies to a place, rows of words.
// (Places stand beside the slices that are written: a lent slice can't grow.)
#![tactic(auto)]

ghost use Rattle.std.specs.Prelude.{◌≡◌, ◌+◌, ◌*◌, ◌≤◌, length};
ghost use Rattle.std.proofs.lemmas.List.Edits.{sets};
ghost use Rattle.ground.specs.Bytes.{word_at, bytes_of, to_bytes};

// The word at byte i.
pub fn get(bytes: &[u8], i: usize) -> u32
    requires { i + 4 ≤ length bytes.now }
    ensures { result ≡ word_at bytes.now i }
{
    u32::from_be_bytes([bytes[i], bytes[i + 1], bytes[i + 2], bytes[i + 3]])
}

// A word stored at byte i.
pub fn put(bytes: &mut [u8], i: usize, word: u32)
    requires { i + 4 ≤ length bytes.old }
    ensures { bytes.new ≡ sets bytes.old i (bytes_of word) }
{
    copy(bytes, i, &word.to_be_bytes());
}

// Items copied to place `at`. (One by one: `copy_from_slice` would have the archive ask for memmove from outside.)
#[tactic(auto, using(ground::proofs::Lists::copied_more))]
pub fn copy<T: Copy>(to: &mut [T], at: usize, from: &[T])
    requires { at + length from.now ≤ length to.old }
    ensures { to.new ≡ sets to.old at from.now }
{
    for (i, &item) in from.iter().enumerate() {
        to[at + i] = item;
    }
}

// The bytes of words copied to place `at`.
pub fn copy_words(to: &mut [u8], at: usize, from: &[u32])
    requires { at + length from.now * 4 ≤ length to.old }
    ensures { to.new ≡ sets to.old at (to_bytes from.now) }
{
    for (i, &word) in from.iter().enumerate() {
        put(to, at + i * 4, word);
    }
}

#[cfg(test)]
mod tests {
    use super::copy;

    // The two types that the engine copies.
    #[test]
    fn bytes_and_words(rt: HostRuntime) {
        let mut bytes = [1u8, 2, 3, 4];
        copy(&mut bytes, 1, &[8, 9]);
        assert_eq!(rt; bytes, [1, 8, 9, 4]);
        let mut row = [1u32, 2, 3];
        copy(&mut row, 2, &[0x1_0000]);
        assert_eq!(rt; row, [1, 2, 0x1_0000]);
    }
}
