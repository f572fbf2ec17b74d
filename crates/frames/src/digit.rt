// Capital hexadecimal digits, written and read. The digit count is an argument, or the length of the part that the digits fill.
ghost use Rattle.std.specs.Prelude.{◌≡◌, ◌+◌, ◌%◌, ◌<◌, ◌≤◌, length};
ghost use Rattle.frames.specs.Digits.{digit_of, digits, byte_at, is_digit, digit_value, digits_at, number_at};
ghost use Rattle.frames.specs.Put.{Wrote};

use tables::refusal::Refusal;

pub(crate) fn digit(d: usize) -> u8
    requires { d < 16 }
    ensures { result ≡ digit_of d }
{
    if d < 10 {
        b'0' + d as u8
    } else {
        b'A' + (d - 10) as u8
    }
}

// Fills the places with the last digits of x, the last digit first. By index: of the elements behind `iter_mut().rev()` nothing is known
// after a loop.
pub(crate) fn store_digits(places: &mut [u8], x: usize)
    ensures { places.new ≡ digits (length places.old) x }
{
    let mut rest = x;
    for i in (0..places.len()).rev() {
        places[i] = digit(rest % 16);
        rest /= 16;
    }
}

pub fn put_digits(part: &mut [u8], k: usize, x: usize) -> Result<usize, Refusal>
    ensures { Wrote (digits k x) part.old result part.new }
{
    if part.len() < k {
        return Err(Refusal::Length);
    }
    store_digits(&mut part[..k], x);
    Ok(k)
}

#[tactic(auto, unfolding(crate::specs::Digits::is_digit))]
fn is_digit(b: u8) -> bool
    ensures { result ≡ is_digit b }
{
    matches!(b, b'0'..=b'9' | b'A'..=b'F')
}

// Every byte has a value; only that of a digit means something.
#[tactic(auto, unfolding(crate::specs::Digits::digit_value))]
fn digit_value(b: u8) -> u16
    ensures { result ≡ digit_value b }
{
    if b < b'A' {
        b.saturating_sub(b'0') as u16
    } else {
        (b - b'A' + 10) as u16
    }
}

// The byte i places behind p; 0 past the end of the text, as `byte_at` of the definitions: `number_at` promises its number there too.
fn byte_behind(text: &[u8], p: usize, i: usize) -> u8
    ensures { result ≡ byte_at text.now (p + i) }
{
    p.checked_add(i)
        .and_then(|place| text.get(place))
        .copied()
        .unwrap_or(0)
}

pub(crate) fn digits_at(text: &[u8], p: usize, k: usize) -> bool
    requires { p + k ≤ length text.now }
    ensures { result ≡ digits_at k text.now p }
{
    (0..k).all(|i| is_digit(text[p + i]))
}

// The number that the k bytes at place p write, modulo 65,536: four digits are the most that a u16 holds.
pub fn number_at(text: &[u8], p: usize, k: usize) -> u16
    ensures { result ≡ number_at k text.now p % 65536 }
{
    (0..k).fold(
        0u16,
        |value, i| value
            .wrapping_mul(16)
            .wrapping_add(digit_value(byte_behind(text, p, i))),
    )
}
