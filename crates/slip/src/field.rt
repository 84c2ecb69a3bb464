// The fields of a line: what follows its letter.
ghost use Rattle.std.specs.Prelude.{◌≡◌};
ghost use Rattle.slip.specs.Fields.{fields};

use text::spaced::numbers;

/// How many digits a number has at most.
const MAX_DIGITS: usize = 5;

/// Just so many fields: a space, and the numbers.
pub(crate) fn fields<const N: usize>(text: &[u8]) -> Option<[u32; N]>
    ensures { result ≡ fields N text.now }
{
    match text {
        [b' ', text @ ..] => numbers(text, MAX_DIGITS),
        _ => None,
    }
}
