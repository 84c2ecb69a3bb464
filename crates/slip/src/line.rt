// One finished line of a slip: its tests in their order, and what it enters into the sheet.
ghost use Rattle.std.specs.Prelude.{◌≡◌, ◌+◌, ◌≤◌, length};
ghost use Rattle.sheet.specs.Sheets.{entries};
ghost use Rattle.slip.specs.Format.{longest_slip};
ghost use Rattle.slip.specs.Adding.{unless_refused};
ghost use Rattle.slip.specs.Reading.{place_or, with_entries, read_job, read_link, true_figures, read_trailer, read_kind, read_line};

use crate::fault::Fault;
use crate::field::fields;
use crate::kind::{Kind, Stage, line_kind};
use sheet::table::Sheet;

/// How far the reader has come.
#[derive(Clone, Copy)]
pub(crate) struct Progress {
    /// The line to read next, from 1.
    pub(crate) line: usize,
    /// The byte place of that line, from 0.
    pub(crate) place: usize,
    /// What the lines before it were.
    pub(crate) stage: Stage,
}

impl Progress {
    /// The byte place where the job lines end: that of the first link line, or else of the next line.
    fn jobs_end(&self) -> usize
        ensures { result ≡ place_or self.now.stage self.now.place }
    {
        match self.stage {
            Stage::Links(place) => place,
            Stage::Jobs | Stage::Ended => self.place,
        }
    }
}

/// A job line, by what follows its letter.
fn job_line(sheet: &mut Sheet, line: usize, text: &[u8]) -> Result<(), Fault>
    ensures { unless_refused result (entries sheet.new) ≡ read_job line (entries sheet.old) text.now }
{
    let [station, duration, release, due] = fields::<4>(text).ok_or(Fault::BadFields(line))?;
    sheet
        .enter(station, duration, release, due)
        .map_err(|refusal| Fault::Refused(line, refusal))?;
    Ok(())
}

/// A link line, by what follows its letter.
fn link_line(sheet: &mut Sheet, line: usize, text: &[u8]) -> Result<(), Fault>
    ensures { unless_refused result (entries sheet.new) ≡ read_link line (entries sheet.old) text.now }
{
    let [from, to, wait] = fields::<3>(text).ok_or(Fault::BadFields(line))?;
    sheet
        .link(from, to, wait)
        .map_err(|refusal| Fault::Refused(line, refusal))
}

/// Whether the trailer's figures are the counts of jobs and links, and the place where the job lines end.
fn true_figures(sheet: &Sheet, place: usize, figures: [u32; 3]) -> bool
    ensures { result ≡ true_figures (entries sheet.now) place figures }
{
    let [jobs, links, told] = figures;
    jobs as usize == sheet.jobs().len()
        && links as usize == sheet.links().len()
        && told as usize == place
}

/// The trailer, by what follows its letter.
fn trailer_line(sheet: &Sheet, line: usize, place: usize, text: &[u8]) -> Result<(), Fault>
    ensures { unless_refused result (entries sheet.now) ≡ read_trailer line (entries sheet.now) place text.now }
{
    let figures = fields::<3>(text).ok_or(Fault::BadFields(line))?;
    if true_figures(sheet, place, figures) {
        Ok(())
    } else {
        Err(Fault::UntrueTrailer(line))
    }
}

/// A line of a kind, by what follows its letter.
// Line, place and length are bounded in clauses: what bounds them is the whole slip, of which these are parts.
fn read_kind(
    sheet: &mut Sheet,
    at: Progress,
    kind: Option<Kind>,
    text: &[u8],
) -> Result<Progress, Fault>
    requires line { at.line ≤ longest_slip + 1 }
    requires place { at.place ≤ longest_slip }
    requires short { length text.now ≤ longest_slip }
    ensures { with_entries result (entries sheet.new) ≡ read_kind at (entries sheet.old) kind text.now }
{
    let line = at.line + 1;
    let place = at.place + text.len() + 2;
    let jobs_end = at.jobs_end();
    let stage = match kind.ok_or(Fault::BadLetter(at.line))? {
        Kind::JobLine => {
            job_line(sheet, at.line, text)?;
            at.stage
        }
        Kind::LinkLine => {
            link_line(sheet, at.line, text)?;
            Stage::Links(jobs_end)
        }
        Kind::Trailer => {
            trailer_line(sheet, at.line, jobs_end, text)?;
            Stage::Ended
        }
    };
    Ok(Progress { line, place, stage })
}

/// One finished line.
pub(crate) fn read_line(sheet: &mut Sheet, at: Progress, line: &[u8]) -> Result<Progress, Fault>
    requires line { at.line ≤ longest_slip + 1 }
    requires place { at.place ≤ longest_slip }
    requires short { length line.now ≤ longest_slip }
    ensures { with_entries result (entries sheet.new) ≡ read_line at (entries sheet.old) line.now }
{
    match line {
        [letter, text @ ..] => read_kind(sheet, at, line_kind(*letter, at.stage), text),
        [] => Err(Fault::BadLetter(at.line)),
    }
}
