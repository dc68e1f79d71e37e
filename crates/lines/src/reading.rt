// A text's first line as so many decimal numbers.
ghost use Rattle.std.specs.Prelude.{◌≡◌, true, ◌&&◌, ltb, length, if◌then◌else◌, IsSome, ◌↔◌};
ghost use Rattle.lines.specs.Reading.{all_digits, value_of, is_number, is_line, line_numbers};

// A part of one byte may be the digit 0; in a longer one it would lead.
const ONE_BYTE: usize = 1;

// The value of digits, where it fits 32 bits.
#[tactic(auto, using(crate::proofs::Values::readings))]
fn value_of(part: &[u8]) -> Option<u32>
    ensures { result ≡ (if all_digits part.now && ltb (value_of part.now) 4294967296 then Some (value_of part.now) else None) }
{
    let mut value = 0u32;
    for &b in part {
        if !b.is_ascii_digit() {
            return None;
        }
        value = value.checked_mul(10)?.checked_add(u32::from(b - b'0'))?;
    }
    Some(value)
}

// A number has one digit or more, and no zero in front of others.
#[tactic(auto, using(crate::proofs::Numbers::number_empty, crate::proofs::Numbers::number_led, crate::proofs::Numbers::number_else))]
pub fn number_of(part: &[u8]) -> Option<u32>
    ensures { result ≡ (if is_number part.now then Some (value_of part.now) else None) }
{
    if part.is_empty() || ONE_BYTE < part.len() && part[0] == b'0' {
        return None;
    }
    value_of(part)
}

// A text's first line as one number for each place, with a space between two. What stands after the first newline isn't looked at.
// The numbers mean something only at Some. `split` always gives a first part.
pub fn numbers_into(text: &[u8], numbers: &mut [u32]) -> Option<()>
    ensures some { IsSome result ↔ (is_line (length numbers.old) text.now ≡ true) }
    ensures values { IsSome result → numbers.new ≡ line_numbers text.now }
{
    let line = text.split(|&b| b == b'\n').next()?;
    let mut parts = line.split(|&b| b == b' ');
    for number in numbers.iter_mut() {
        *number = number_of(parts.next()?)?;
    }
    match parts.next() {
        None => Some(()),
        Some(_) => None,
    }
}

// The same as an array, where the count is known: a loop over one of N places got no proof.
pub fn numbers_of<const N: usize>(text: &[u8]) -> Option<[u32; N]>
    ensures { result ≡ (if is_line N text.now then Some (line_numbers text.now) else None) }
{
    let mut numbers = [0; N];
    numbers_into(text, &mut numbers)?;
    Some(numbers)
}
