// A narrowing rule: which timetables it admits, what it makes of windows, and the laws that tie the two.
ghost use Rattle.std.specs.Prelude.{◌≡◌, ℕ, true, List, length};
ghost use Rattle.sheet.specs.declared.records.Window.{Window};
ghost use Rattle.sheet.specs.Entries.{Entries};
ghost use Rattle.sheet.specs.Sheets.{entries};
ghost use Rattle.sheet.specs.Sound.{Sound};
ghost use Rattle.rule.specs.Windows.{formed};
ghost use Rattle.rule.specs.Cuts.{Cut, verdict_of, left, answer_of, after};
ghost use Rattle.rule.specs.Laws.{Lawful};

use crate::verdict::Verdict;
use crate::windows::well_formed;
use sheet::records::Window;
use sheet::refusal::Refusal;
use sheet::table::Sheet;

/// A rule on timetables that narrows the windows of the starts.
///
/// Its author says by two ghost members what it means: which timetables it `admits` on a sheet, and
/// the `cut`, what it makes of windows: dead, or new windows. The law `lawful` holds the two together.
pub trait Rule {
    ghost admits: { Self → Entries → List ℕ → Type 0 };

    ghost cut: { Self → Entries → List Window → Cut };

    /// Narrows windows that are well formed. This is what a rule's author writes; others call `narrow`.
    // Sheet and windows side by side, well formed by a clause: a struct of both, with that as a ghost field, would be
    // taken apart by every author to write the windows.
    fn propagate(&self, sheet: &Sheet, windows: &mut [Window]) -> Verdict
        requires { formed (length (entries sheet.now).jobs) windows.old ≡ true }
        ensures answer { result ≡ verdict_of (cut self.now (entries sheet.now) windows.old) }
        ensures after { windows.new ≡ left (cut self.now (entries sheet.now) windows.old) windows.old };

    /// Narrows the windows of a sheet's jobs in place, or leaves them where the rule is dead.
    /// Malformed windows are refused, and left too.
    fn narrow(&self, sheet: &Sheet, windows: &mut [Window]) -> Result<Verdict, Refusal>
        ensures answer { result ≡ answer_of (formed (length (entries sheet.now).jobs) windows.old) (cut self.now (entries sheet.now) windows.old) }
        ensures after { windows.new ≡ after (formed (length (entries sheet.now).jobs) windows.old) (cut self.now (entries sheet.now) windows.old) windows.old }
    {
        if !well_formed(sheet.jobs().len(), windows) {
            return Err(Refusal::MalformedWindows);
        }
        Ok(self.propagate(sheet, windows))
    }

    ghost lawful: { (r : Self) (e : Entries) → Sound e → Lawful (length e.jobs) (admits r e) (cut r e) };
}
