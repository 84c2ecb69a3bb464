// A rule repeated until it is dead or changes nothing.
ghost use Rattle.std.specs.Prelude.{◌≡◌, suc, true, List, length};
ghost use Rattle.sheet.specs.declared.records.Window.{Window};
ghost use Rattle.sheet.specs.Entries.{Entries};
ghost use Rattle.sheet.specs.Sheets.{entries};
ghost use Rattle.sheet.specs.Sound.{Sound};
ghost use Rattle.rule.specs.Windows.{formed};
ghost use Rattle.rule.specs.Cuts.{left, repeated, width};
ghost use Rattle.rule.specs.Rounds.{round_of};
ghost use Rattle.rule.specs.Laws.{Repeats};
ghost use Rattle.rule.specs.Piling.{then_live};
ghost use Rattle.rule.specs.Repeating.{repeated_within, repeated_keeps};

use crate::narrowing::Rule;
use crate::verdict::{Dead, Verdict};
use crate::windows::copy_of;
use sheet::records::Window;
use sheet::table::Sheet;

/// Admits what its rule admits. It ends, since each round that changes something shrinks a window.
#[derive(Drop)]
pub struct Standstill<A>(pub A);

impl<A: Rule> Standstill<A> {
    /// The standstill of a rule: on the windows of any sheet it comes to what repeating the rule comes to.
    pub fn of(rule: A) -> Standstill<A>
        ensures rule { result.0 ≡ rule }
        ensures repeats { (e : Entries) (ws : List Window) → Sound e → formed (length e.jobs) ws ≡ true → Repeats (A.Rule.cut rule e) ws (repeated (A.Rule.cut rule e) ws) }
    {
        Standstill(rule)
    }
}

/// Narrows the windows once more, and tells whether that changed something.
fn go_round<A: Rule>(rule: &A, sheet: &Sheet, windows: &mut [Window]) -> Result<bool, Dead>
    requires { formed (length (entries sheet.now).jobs) windows.old ≡ true }
    ensures answer { result ≡ round_of (A.Rule.cut rule.now (entries sheet.now) windows.old) windows.old }
    ensures after { windows.new ≡ left (A.Rule.cut rule.now (entries sheet.now) windows.old) windows.old }
{
    let before = copy_of(windows);
    rule.propagate(sheet, windows)?;
    Ok(&*windows != before.as_slice())
}

impl<A: Rule> Rule for Standstill<A> {
    ghost admits = { λ r e t. A.Rule.admits r.0 e t };

    ghost cut = { λ r e ws. repeated (A.Rule.cut r.0 e) ws };

    ghost lawful = { λ r e s.
        let a = A.Rule.lawful r.0 e s in
        record {
          contracting = λ ws us f l. repeated_within _ _ a.contracting (suc (width ws)) ws us f l;
          preserving = λ ws t f p i. repeated_keeps _ _ a.contracting t (λ vs o j. a.preserving vs t o p j) (suc (width ws)) ws f i;
          checking = λ ws us f o l. let d = then_live _ _ us l in a.checking ws d.0 f o d.1;
        } };

    fn propagate(&self, sheet: &Sheet, windows: &mut [Window]) -> Verdict {
        let handed = copy_of(windows);
        loop {
            match go_round(&self.0, sheet, windows) {
                Ok(true) => {}
                Ok(false) => return Ok(()),
                Err(Dead) => {
                    windows.copy_from_slice(&handed);
                    return Err(Dead);
                }
            }
        }
    }
}
