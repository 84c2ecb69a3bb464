// A draft: a sheet that is being filled, with the pile of rules for its searches.
ghost use Rattle.std.specs.Prelude.{◌≡◌};
ghost use Rattle.sheet.specs.Entries.{no_entries, with_job, with_link, job_of, link_of, moved};
ghost use Rattle.sheet.specs.Sheets.{entries};
ghost use Rattle.sheet.specs.Entering.{enter_answer, link_answer, move_answer, taken};

use sheet::refusal::Refusal;
use sheet::table::Sheet;

/// A sheet, and a pile of rules that is the same for its whole life.
#[derive(Drop)]
pub struct Draft<P> {
    pub(crate) sheet: Sheet,
    pub(crate) pile: P,
}

// Each call says that the pile stays: a sheet lent out for writing would need a clause on what the loan writes back.
impl<P> Draft<P> {
    /// A fresh draft, with an empty sheet.
    pub fn new(pile: P) -> Draft<P>
        ensures sheet { entries result.sheet ≡ no_entries }
        ensures pile { result.pile ≡ pile }
    {
        Draft {
            sheet: Sheet::new(),
            pile,
        }
    }

    /// The sheet as it stands.
    pub fn sheet(&self) -> &Sheet
        ensures { result.now ≡ self.now.sheet }
    {
        &self.sheet
    }

    /// Adds a job and answers its number.
    pub fn enter(
        &mut self,
        station: u32,
        duration: u32,
        release: u32,
        due: u32,
    ) -> Result<u32, Refusal>
        ensures answer { result ≡ enter_answer (entries self.old.sheet) (job_of station duration release due) }
        ensures sheet { entries self.new.sheet ≡ taken result (entries self.old.sheet) (with_job (entries self.old.sheet) (job_of station duration release due)) }
        ensures pile { self.new.pile ≡ self.old.pile }
    {
        self.sheet.enter(station, duration, release, due)
    }

    /// Adds a link: job `to` starts no sooner than the end of job `from` plus the wait.
    pub fn link(&mut self, from: u32, to: u32, wait: u32) -> Result<(), Refusal>
        ensures answer { result ≡ link_answer (entries self.old.sheet) (link_of from to wait) }
        ensures sheet { entries self.new.sheet ≡ taken result (entries self.old.sheet) (with_link (entries self.old.sheet) (link_of from to wait)) }
        ensures pile { self.new.pile ≡ self.old.pile }
    {
        self.sheet.link(from, to, wait)
    }

    /// Gives a job a new release and due time, and leaves every other job and every link.
    pub fn move_job(&mut self, job: u32, release: u32, due: u32) -> Result<(), Refusal>
        ensures answer { result ≡ move_answer (entries self.old.sheet) job release due }
        ensures sheet { entries self.new.sheet ≡ taken result (entries self.old.sheet) (moved (entries self.old.sheet) job release due) }
        ensures pile { self.new.pile ≡ self.old.pile }
    {
        self.sheet.move_job(job, release, due)
    }
}
