// The table of pairs for every set of locations that bounds allow: with the short one's pairs first, and the same rule.
#![tactic(auto)]

mod table;

ghost use Rattle.logic.specs.Book.{most};
ghost use Rattle.pairs.specs.Pairs.{Lists};

// The table: a place for each of 256 sets and for each of their 6,561 pairs.
pub fn all() -> &'static [u16]
    ensures { Lists most result.now }
{
    &table::PAIRS
}
