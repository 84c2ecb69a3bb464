// The seven calls as values, and their answers.
use search::outcome::Outcome;
use sheet::refusal::Refusal;

/// A call on a draft or a search.
#[derive(Clone, Copy, PartialEq, Eq, Debug)]
pub enum Call {
    Enter {
        station: u32,
        duration: u32,
        release: u32,
        due: u32,
    },
    Link {
        from: u32,
        to: u32,
        wait: u32,
    },
    Move {
        job: u32,
        release: u32,
        due: u32,
    },
    Close,
    Advance {
        looks: u32,
    },
    Start {
        job: u32,
    },
    Reopen,
}

/// What a call answers.
#[derive(Clone, Copy, PartialEq, Eq, Debug)]
pub enum Answer {
    /// The number of the job entered, the start asked for, or 0 for a link and a move.
    // One number for the three: a call answers a number, whatever it is called for, and plancalls prints it.
    Number(u32),
    /// Why the call was refused; it changed nothing.
    Refused(Refusal),
    /// The draft is closed.
    Closed,
    /// The outcome, and the looks made.
    Advanced(Outcome, u32),
    /// The search is reopened.
    Reopened,
    /// The call belongs to a draft and there is a search, or the other way round; it changed nothing.
    OutOfTurn,
}
