// A whole slip, read into a sheet.
ghost use Rattle.std.specs.Prelude.{◌≡◌, ◌≤◌, length};
ghost use Rattle.sheet.specs.Sheets.{entries};
ghost use Rattle.text.specs.Bytes.{line_end};
ghost use Rattle.text.specs.Splitting.{split};
ghost use Rattle.slip.specs.Format.{longest_slip};
ghost use Rattle.slip.specs.Adding.{unless_refused};
ghost use Rattle.slip.specs.Reading.{start, read_lines, read, left_entries};
ghost use Rattle.slip.specs.Laws.{ReaderLaw};

use crate::fault::Fault;
use crate::kind::Stage;
use crate::line::{Progress, read_line};
use sheet::table::Sheet;
use text::split::split_at;

/// How many bytes a slip has at most.
pub const MAX_SLIP: usize = 4_096;

/// The finished lines from the top.
fn read_lines(sheet: &mut Sheet, bytes: &[u8]) -> Result<(), Fault>
    requires { length bytes.now ≤ longest_slip }
    ensures { unless_refused result (entries sheet.new) ≡ read_lines start (entries sheet.old) (split line_end bytes.now) }
{
    let mut at = Progress {
        line: 1,
        place: 0,
        stage: Stage::Jobs,
    };
    let mut rest = bytes;
    while let Some((line, after)) = split_at(rest, b'\n') {
        at = read_line(sheet, at, line)?;
        rest = after;
    }
    if at.stage == Stage::Ended && rest.is_empty() {
        Ok(())
    } else {
        Err(Fault::Unfinished(at.line))
    }
}

/// Any bytes, into an emptied sheet.
fn read_bytes(sheet: &mut Sheet, bytes: &[u8]) -> Result<(), Fault>
    ensures answer { result ≡ unless_refused (read bytes.now) tt }
    ensures sheet { entries sheet.new ≡ left_entries (read bytes.now) }
{
    *sheet = Sheet::new();
    if bytes.len() > MAX_SLIP {
        return Err(Fault::TooLong);
    }
    let answer = read_lines(sheet, bytes);
    if answer.is_err() {
        *sheet = Sheet::new();
    }
    answer
}

/// Reads a slip into the sheet, which is emptied first and is empty after a fault.
pub fn read_slip(sheet: &mut Sheet, bytes: &[u8]) -> Result<(), Fault>
    ensures answer { result ≡ unless_refused (read bytes.now) tt }
    ensures sheet { entries sheet.new ≡ left_entries (read bytes.now) }
    ensures law { ReaderLaw bytes.now result (entries sheet.new) }
{
    read_bytes(sheet, bytes)
}
