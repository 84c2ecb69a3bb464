// The house pile: the rules that every plan of the hall keeps.
use disjunctive::rules::{EDGES, Edges, NOT_FIRST, NotFirst, PAIRS, Pairs};
use route::Route;
use rule::both::Both;
use rule::standstill::Standstill;

/// Route, and the standstill of Pairs, Edges and Not-first in this order.
pub type HousePile = Both<Route, Standstill<Both<Pairs, Both<Edges, NotFirst>>>>;

/// The house pile.
pub const HOUSE_PILE: HousePile = Both(Route, Standstill(Both(PAIRS, Both(EDGES, NOT_FIRST))));
