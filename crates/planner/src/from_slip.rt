// A draft filled from a slip.
ghost use Rattle.std.specs.Prelude.{◌≡◌};
ghost use Rattle.sheet.specs.Sheets.{entries};
ghost use Rattle.slip.specs.Adding.{unless_refused};
ghost use Rattle.slip.specs.Reading.{read, left_entries};
ghost use Rattle.slip.specs.Laws.{ReaderLaw};

use crate::draft::Draft;
use slip::fault::Fault;
use slip::reader::read_slip;

impl<P> Draft<P> {
    /// Reads a slip into the draft, which is emptied first and is empty after a fault.
    pub fn read(&mut self, bytes: &[u8]) -> Result<(), Fault>
        ensures answer { result ≡ unless_refused (read bytes.now) tt }
        ensures sheet { entries self.new.sheet ≡ left_entries (read bytes.now) }
        ensures pile { self.new.pile ≡ self.old.pile }
        ensures law { ReaderLaw bytes.now result (entries self.new.sheet) }
    {
        read_slip(&mut self.sheet, bytes)
    }
}
