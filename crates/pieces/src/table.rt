// Tables of numbers, filled from a row of digits.
use garment::UNUSED;

// What no engine writes here, so that a table that still holds it was not written.
pub(crate) const MARK: u16 = 4242;

// '0' to '9', and '-' for what is unused.
fn number_of(digit: u8) -> u16 {
    if digit < b'0' {
        return UNUSED;
    }
    (digit - b'0') as u16
}

// Places past the digits stay as they are.
pub(crate) fn fill(table: &mut [u16], digits: &[u8]) {
    for (place, digit) in table.iter_mut().zip(digits) {
        *place = number_of(*digit);
    }
}
