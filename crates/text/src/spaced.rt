// Numbers parted by one space, each of at most so many digits and of 32 bits.
ghost use Rattle.std.specs.Prelude.{◌≡◌, length, Some, None, MatchOption};
ghost use Rattle.text.specs.Bytes.{space};
ghost use Rattle.text.specs.Splitting.{split};
ghost use Rattle.text.specs.Numbers.{number_32};
ghost use Rattle.text.specs.Spaced.{numbers};

use crate::number::parse_number;

/// Reads just as many numbers as there are places for them.
fn read_numbers(places: &mut [u32], text: &[u8], digits: usize) -> Option<()>
    ensures { MatchOption result (numbers (number_32 digits) (length places.old) (split space text.now) ≡ None) (λ _. numbers (number_32 digits) (length places.old) (split space text.now) ≡ Some places.new) }
{
    let mut fields = text.split(|byte| *byte == b' ');
    for place in places {
        *place = parse_number(fields.next()?, digits)?;
    }
    match fields.next() {
        Some(_) => None,
        None => Some(()),
    }
}

/// Just so many numbers.
pub fn numbers<const N: usize>(text: &[u8], digits: usize) -> Option<[u32; N]>
    ensures { result ≡ numbers (number_32 digits) N (split space text.now) }
{
    let mut numbers = [0; N];
    read_numbers(&mut numbers, text, digits)?;
    Some(numbers)
}
