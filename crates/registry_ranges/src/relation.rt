//! Relations of versions by precedence.

ghost use Rattle.std.specs.Prelude.{◌≡◌};
ghost use Rattle.registry_ranges.specs.Comparators.{meets};

use std::cmp::Ordering;

/// How a version compares with a bound, by precedence.
#[derive(Clone, Copy, Debug, PartialEq, Eq)]
pub enum Relation {
    /// `<`
    Less,
    /// `<=`
    LessEq,
    /// `>`
    Greater,
    /// `>=`
    GreaterEq,
    /// `=`
    Equal,
}

impl Relation {
    /// Whether two versions of this order are in this relation.
    pub fn is_met(self, order: Ordering) -> bool
        ensures { result ≡ meets self order }
    {
        match self {
            Relation::Less => order.is_lt(),
            Relation::LessEq => order.is_le(),
            Relation::Greater => order.is_gt(),
            Relation::GreaterEq => order.is_ge(),
            Relation::Equal => order.is_eq(),
        }
    }
}
