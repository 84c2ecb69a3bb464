// Two rules as one: the first, and then the second on what it left.
ghost use Rattle.std.specs.Prelude.{◌≡◌, List};
ghost use Rattle.std.proofs.Common.{subst};
ghost use Rattle.rule.specs.Cuts.{then_cut, live};
ghost use Rattle.sheet.specs.declared.records.Window.{Window};
ghost use Rattle.rule.specs.Forming.{within_formed, within_within, within_single};
ghost use Rattle.rule.specs.Piling.{then_live, then_keeps};

use crate::narrowing::Rule;
use crate::verdict::{Dead, Verdict};
use crate::windows::copy_of;
use sheet::records::Window;
use sheet::table::Sheet;

/// Admits what both rules admit; dead if either is.
#[derive(Drop)]
pub struct Both<A, B>(pub A, pub B);

impl<A: Rule, B: Rule> Rule for Both<A, B> {
    ghost admits = { λ r e t. A.Rule.admits r.0 e t × B.Rule.admits r.1 e t };

    ghost cut = { λ r e ws. then_cut (A.Rule.cut r.0 e ws) (B.Rule.cut r.1 e) };

    ghost lawful = { λ r e s.
        let a = A.Rule.lawful r.0 e s in
        let b = B.Rule.lawful r.1 e s in
        record {
          contracting = λ ws us f l.
              let d = then_live _ _ us l in
              let w = a.contracting ws d.0 f d.1 in
              within_within us d.0 ws (b.contracting d.0 us (within_formed d.0 ws f w) d.2) w;
          preserving = λ ws t f p i.
              then_keeps _ _ t (a.preserving ws t f p.0 i) (λ vs l j.
              b.preserving vs t (within_formed vs ws f (a.contracting ws vs f l)) p.1 j);
          checking = λ ws us f o l.
              let d = then_live _ _ us l in
              let q = within_single d.0 ws (a.contracting ws d.0 f d.1) o in
              let x : B.Rule.cut r.1 e ws ≡ live us = subst (λ (vs : List Window). B.Rule.cut r.1 e vs ≡ live us) q d.2 in
              (a.checking ws d.0 f o d.1, b.checking ws us f o x);
        } };

    fn propagate(&self, sheet: &Sheet, windows: &mut [Window]) -> Verdict {
        let handed = copy_of(windows);
        self.0.propagate(sheet, windows)?;
        if let Err(Dead) = self.1.propagate(sheet, windows) {
            windows.copy_from_slice(&handed);
            return Err(Dead);
        }
        Ok(())
    }
}
