// What a rule says of windows.
ghost use Rattle.std.specs.Prelude.{◌≡◌};
ghost use Rattle.rule.specs.Cuts.{verdict_number};

/// No timetable that the rule admits lies within the windows.
#[derive(Clone, Copy, PartialEq, Eq, Debug)]
pub struct Dead;

/// Whether a timetable may still lie within the windows: `Ok` where one may, and they are the narrowed ones.
pub type Verdict = Result<(), Dead>;

/// The number that tells the verdict.
// No From: a Result and a u32 are both the library's.
pub fn number(verdict: Verdict) -> u32
    ensures { result ≡ verdict_number verdict }
{
    match verdict {
        Ok(()) => 0,
        Err(Dead) => 1,
    }
}
