// Bytes split at a separator: lines at byte 10, fields at a space.
ghost use Rattle.std.specs.Prelude.{◌≡◌, ◌+◌, length, IfSome, MatchOption, position, ◌==◌};
ghost use Rattle.text.specs.Splitting.{last, next, split};

/// The place of the first byte that is the separator.
fn first_place(text: &[u8], separator: u8) -> Option<usize>
    ensures { result ≡ position (λ b. b == separator) text.now }
{
    text.iter().position(|byte| *byte == separator)
}

/// What stands before the first separator and what stands after it, if there is one.
pub fn split_at(text: &[u8], separator: u8) -> Option<(&[u8], &[u8])>
    ensures parts { MatchOption result (split separator text.now ≡ last text.now) (λ x. split separator text.now ≡ next x.0.now (split separator x.1.now)) }
    ensures lengths { IfSome result (λ x. length x.0.now + length x.1.now + 1 ≡ length text.now) }
{
    let place = first_place(text, separator)?;
    Some((&text[..place], &text[place + 1..]))
}
