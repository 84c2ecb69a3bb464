// The example slip.

/// Two linked jobs at one station.
pub(crate) const EXAMPLE: &str = "J 0 5 0 12\nJ 0 4 0 9\nL 0 1 0\nE 2 1 21\n";
