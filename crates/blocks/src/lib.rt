// Which blocks of a heap's digits hold no lowest fit, by the facts of the formula and the names of the stack. Not every fact is asked
// at every level: a block that should have been passed over is looked into.
#![tactic(auto)]

ghost use Rattle.std.specs.Prelude.{◌≡◌, true, suc, ◌≤◌, ◌<◌, IfSome};
ghost use Rattle.logic.specs.Heap.{Heap};
ghost use Rattle.cells.specs.Cells.{most, cells};
ghost use Rattle.levels.specs.Levels.{Worse};
ghost use Rattle.blocks.specs.Over.{BothIn, Full, Over};

use cells::cell;
use levels::{crowded, worse};
use rootfacts::{Entries, cap_at, may_stand};

// Whether a and a + 1 are both in the set u.
fn both_in(u: u64, a: u64) -> bool
    requires { (1 ≤ a) × (a ≤ most) }
    ensures { result ≡ true → BothIn u a }
{
    (u >> (a - 1)) % 4 == 3
}

// The lowest location that has a cell, or the last: where a carry stopped, if no digit above has changed.
fn carried_to(w: u64, n: u64) -> u64
    requires { n ≤ most }
    ensures { result ≤ n }
{
    for i in 0..n {
        if cell(w, i + 1) != 0 {
            return i + 1;
        }
    }
    n
}

// What is known of one stack: how many locations there are, which of them are not named, and the facts of the formula at each.
#[derive(Clone, Copy)]
pub struct Known<'a> {
    pub locs: u64,
    pub unnamed: u64,
    pub facts: &'a Entries,
    pub ghost few: { locs ≤ most },
}

impl Known<'_> {
    // Whether more of the cells above j point to l than may. No more than all locations can, so that a cap over their number bars nothing.
    fn is_full(&self, w: u64, j: u64, l: u64) -> bool
        requires { (j ≤ self.now.locs) × (l ≤ self.now.locs) }
        ensures { result ≡ true → Full self.now.facts.now self.now.locs w j l }
    {
        let cap = cap_at(self.facts, l);
        cap <= self.locs && crowded(w, j, self.locs, l, cap)
    }

    // Whether a and a + 1 are not named, and exchanged give a lower heap, whatever stands up to j.
    fn is_worse(&self, w: u64, j: u64, a: u64) -> bool
        requires { (j ≤ most) × (1 ≤ a) × (a ≤ most) }
        ensures { result ≡ true → (BothIn self.now.unnamed a × Worse a j w) }
    {
        a < cells::MOST && both_in(self.unnamed, a) && worse(w, j, a)
    }

    // Whether the cell at l, the lowest that is known, makes a block that is passed over: by what points to l, by l and the location
    // above, and, if it has a value, by what points there and by the value and the location below.
    fn is_over_at(&self, w: u64, j: u64, d: u64) -> bool
        requires { (j < self.now.locs) × (d ≤ suc self.now.locs) × Heap self.now.locs (cells w) }
        ensures { result ≡ true → Over self.now.facts.now self.now.unnamed self.now.locs w j }
    {
        if self.is_full(w, j, j + 1) || self.is_worse(w, j, j + 1) {
            return true;
        }
        d != 0 && (self.is_full(w, j, d - 1) || (d >= 3 && self.is_worse(w, j, d - 2)))
    }

    // Whether the block of the heap w that has the digits up to j free is passed over, by its lowest digit that is not.
    fn is_over(&self, w: u64, j: u64) -> bool
        requires { (j < self.now.locs) × Heap self.now.locs (cells w) }
        ensures { result ≡ true → Over self.now.facts.now self.now.unnamed self.now.locs w j }
    {
        let d = cell(w, j + 1);
        !may_stand(self.facts, j + 1, d) || self.is_over_at(w, j, d)
    }

    // The highest level, from where a carry stopped, at which the block of the heap w is passed over.
    pub fn level(&self, w: u64) -> Option<u64>
        requires { Heap self.now.locs (cells w) }
        ensures { IfSome result (λ j. (j < self.now.locs) × Over self.now.facts.now self.now.unnamed self.now.locs w j) }
    {
        for j in (0..carried_to(w, self.locs)).rev() {
            if self.is_over(w, j) {
                return Some(j);
            }
        }
        None
    }
}
