// The three kinds of lines, told by their letter, and the stages at which they may come.
ghost use Rattle.std.specs.Prelude.{◌≡◌};
ghost use Rattle.slip.specs.Reading.{kind_of};

/// What a line enters.
#[derive(Clone, Copy)]
pub(crate) enum Kind {
    JobLine,
    LinkLine,
    Trailer,
}

/// What the lines so far were.
#[derive(Clone, Copy, PartialEq, Eq)]
pub(crate) enum Stage {
    /// Jobs alone.
    Jobs,
    /// A link came, the first at this byte place, and then no job.
    Links(usize),
    /// The trailer came.
    Ended,
}

/// The kind that a letter tells at a stage.
// No TryFrom, from a letter and a stage: its error would say no more than None.
pub(crate) fn line_kind(letter: u8, stage: Stage) -> Option<Kind>
    ensures { result ≡ kind_of letter stage }
{
    match letter as char {
        'J' if stage == Stage::Jobs => Some(Kind::JobLine),
        'L' if stage != Stage::Ended => Some(Kind::LinkLine),
        'E' if stage != Stage::Ended => Some(Kind::Trailer),
        _ => None,
    }
}
