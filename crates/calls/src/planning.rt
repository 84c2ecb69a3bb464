// A draft or a search, whichever the calls so far have led to.
use planner::draft::Draft;
use planner::state::Search;

/// What calls are carried out on.
#[derive(Drop)]
pub enum Planner<P> {
    Drafting(Draft<P>),
    Searching(Search<P>),
}
