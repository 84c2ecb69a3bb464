// One line to a call.
ghost use Rattle.std.specs.Prelude.{◌≡◌};
ghost use Rattle.text.specs.Bytes.{space};
ghost use Rattle.text.specs.Splitting.{split};
ghost use Rattle.commands.specs.Commands.{with_numbers, bare, command};
ghost use Rattle.commands.specs.Laws.{CommandLaw};

use crate::word::{Word, parse_word};
use calls::call::Call;
use text::spaced::numbers;
use text::split::split_at;

/// How many digits a number has at most.
const MAX_DIGITS: usize = 10;

/// The call of a word and of its numbers, which follow it after a space.
fn call_with_numbers(word: Word, text: &[u8]) -> Option<Call>
    ensures { result ≡ with_numbers word (split space text.now) }
{
    match word {
        Word::Enter => {
            let [station, duration, release, due] = numbers::<4>(text, MAX_DIGITS)?;
            Some(Call::Enter {
                station,
                duration,
                release,
                due,
            })
        }
        Word::Link => {
            let [from, to, wait] = numbers::<3>(text, MAX_DIGITS)?;
            Some(Call::Link { from, to, wait })
        }
        Word::Move => {
            let [job, release, due] = numbers::<3>(text, MAX_DIGITS)?;
            Some(Call::Move { job, release, due })
        }
        Word::Advance => {
            let [looks] = numbers::<1>(text, MAX_DIGITS)?;
            Some(Call::Advance { looks })
        }
        Word::Start => {
            let [job] = numbers::<1>(text, MAX_DIGITS)?;
            Some(Call::Start { job })
        }
        Word::Close | Word::Reopen => None,
    }
}

/// The call of a word that nothing follows.
fn bare_call(word: Word) -> Option<Call>
    ensures { result ≡ bare word }
{
    match word {
        Word::Close => Some(Call::Close),
        Word::Reopen => Some(Call::Reopen),
        _ => None,
    }
}

/// The call that the line writes, by its word and its numbers.
fn read_call(line: &[u8]) -> Option<Call>
    ensures { result ≡ command line.now }
{
    match split_at(line, b' ') {
        Some((word, text)) => call_with_numbers(parse_word(word)?, text),
        None => bare_call(parse_word(line)?),
    }
}

/// The call that a line writes, without its byte 10, or none if it is ill written.
// No TryFrom: Call is of the crate calls, and slices are of none.
pub fn parse(line: &[u8]) -> Option<Call>
    ensures answer { result ≡ command line.now }
    ensures law { CommandLaw line.now result }
{
    read_call(line)
}
