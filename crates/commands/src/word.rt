// The word that begins a line.
ghost use Rattle.std.specs.Prelude.{◌≡◌};
ghost use Rattle.commands.specs.Words.{word_of};

/// The calls by their words.
#[derive(Clone, Copy)]
pub(crate) enum Word {
    Enter,
    Link,
    Move,
    Close,
    Advance,
    Start,
    Reopen,
}

/// The word that the bytes are.
// No TryFrom: its error would say no more than None.
pub(crate) fn parse_word(bytes: &[u8]) -> Option<Word>
    ensures { result ≡ word_of bytes.now }
{
    match bytes {
        b"enter" => Some(Word::Enter),
        b"link" => Some(Word::Link),
        b"move" => Some(Word::Move),
        b"close" => Some(Word::Close),
        b"advance" => Some(Word::Advance),
        b"start" => Some(Word::Start),
        b"reopen" => Some(Word::Reopen),
        _ => None,
    }
}
