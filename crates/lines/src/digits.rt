// Numbers as text. `write!` and `Display` say which bytes they print on Ok alone, and `put_line`, by its clause `written`, can't fail;
// itoa prints all digits, and `decimal 3` has the last three. (Places beside the room: `lib` says why.)
ghost use Rattle.std.specs.Prelude.{[], ◌∷◌, ◌++◌, ◌≡◌, ◌+◌, ◌%◌, ◌≤◌, length};
ghost use Rattle.ground.specs.Text.{ascii, digit, hexadecimal, decimal};
ghost use Rattle.lines.specs.Lines.{Written};

// The last hexadecimal digit of a number.
#[tactic(auto, using(ground::proofs::Text::digit_low, ground::proofs::Text::digit_high))]
fn last_hexadecimal(n: u32) -> u8
    ensures { result ≡ digit (n % 16) }
{
    let digit = (n % 16) as u8;
    if digit < 10 {
        b'0' + digit
    } else {
        b'a' + (digit - 10)
    }
}

// The last decimal digit of a number.
#[tactic(auto, using(ground::proofs::Text::digit_low))]
fn last_decimal(n: u32) -> u8
    ensures { result ≡ digit (n % 10) }
{
    b'0' + (n % 10) as u8
}

// "value as 8 lowercase hex digits", between two spaces.
pub(crate) fn put_hexadecimal(out: &mut [u8], at: usize, n: u32) -> usize
    requires { at + 10 ≤ length out.old }
    ensures written { Written (ascii " " ++ hexadecimal 8 n ++ ascii " ") at out.old out.new result }
    ensures value { result ≡ at + 10 }
{
    let row = [
        b' ',
        last_hexadecimal(n >> 28),
        last_hexadecimal(n >> 24),
        last_hexadecimal(n >> 20),
        last_hexadecimal(n >> 16),
        last_hexadecimal(n >> 12),
        last_hexadecimal(n >> 8),
        last_hexadecimal(n >> 4),
        last_hexadecimal(n),
        b' ',
    ];
    crate::put_bytes(out, at, &row)
}

// "Kind and interrupts print in decimal", the last three digits at most, and the byte that ends them.
pub(crate) fn put_decimal(out: &mut [u8], at: usize, n: u32, end: u8) -> usize
    requires { at + 4 ≤ length out.old }
    ensures written { Written (decimal 3 n ++ (end ∷ [])) at out.old out.new result }
    ensures upper_bound { result ≤ at + 4 }
{
    if n < 10 {
        crate::put_bytes(out, at, &[last_decimal(n), end])
    } else if n < 100 {
        crate::put_bytes(out, at, &[last_decimal(n / 10), last_decimal(n), end])
    } else {
        let hundreds = last_decimal(n / 100);
        crate::put_bytes(
            out,
            at,
            &[hundreds, last_decimal(n / 10), last_decimal(n), end],
        )
    }
}
