// The judge's core: whether a node of a table holds on a heap. A heap is one number, and so is each of its parts.
#![tactic(auto)]

ghost use Rattle.std.specs.Prelude.{◌≡◌, true, suc, ◌-◌, ◌≤◌, ◌<◌, ◌^◌};
ghost use Rattle.logic.specs.Heap.{Heap};
ghost use Rattle.logic.specs.Table.{op_of, operand_of, tree};
ghost use Rattle.logic.specs.Tests.{andb, within};
ghost use Rattle.logic.specs.Reflect.{Is};
ghost use Rattle.logic.specs.Model.{Fits};
ghost use Rattle.cells.specs.Cells.{most, full, cells, Tabled, Source, SourceBelow};
ghost use Rattle.pairs.specs.Pairs.{Lists};
ghost use Rattle.judge.specs.Listing.{lists_prop};
ghost use Rattle.judge.specs.Setting.{stack_of, Ready, Joined, truth_at, first_at, second_at, serves_at, Chosen, Found, FoundAt, Filled};

use allpairs::all;
use cells::{
    cell, is_empty, is_list, is_points, is_target, met, parts_apart, placed, source_below, spread,
    table, taken,
};
use logic::{Profile, Table};
use pairs::{FEW, begin, few, part_at};
use paths::is_short;

// What is judged in, the same for every node: the bounds v, n and p, the packed stack, the set of the locations at which two heaps
// may not meet, and the profile. No step reads the profile: it says which truth the setting is for.
#[derive(Clone, Copy)]
pub struct Setting {
    pub vars: u64,
    pub locs: u64,
    pub path: u64,
    pub stack: u64,
    pub barred: u64,
    pub profile: Profile,
}

// Operators 1 to 4, over variables.
fn atom(f: &Table, k: usize, b: &Setting, w: u64) -> bool
    requires { (op_of f.now k ≤ 4) × Ready f.now b.now k × Heap b.now.locs (cells w) }
    ensures { result ≡ truth_at f.now b.now k (cells w) }
{
    let op = f[3 * k];
    let x = cell(b.stack, u64::from(f[3 * k + 1]));
    let y = cell(b.stack, u64::from(f[3 * k + 2]));
    match op {
        1 => x == y && is_empty(w),
        2 => x != y && is_empty(w),
        3 => is_points(x, y, w),
        _ => is_list(b.locs, x, y, w),
    }
}

// The setting to judge in, and a table of sets and parts for as many locations or more. The table of nodes is not in it: it would be
// looked up anew at each node, and septractions would take a tenth longer.
#[derive(Clone, Copy)]
pub struct Judge<'a> {
    pub setting: Setting,
    pub pairs: &'a [u16],
    pub ghost lists: { Lists setting.locs pairs.now } by { lists_prop setting.locs pairs.now },
}

impl Judge<'_> {
    // Whether node k holds on the heap w.
    pub fn node_holds(&self, f: &Table, k: usize, w: u64) -> bool
        requires { Ready f.now self.now.setting k × Heap self.now.setting.locs (cells w) }
        ensures { result ≡ truth_at f.now self.now.setting k (cells w) }
    {
        match f[3 * k] {
            1..=4 => atom(f, k, &self.setting, w),
            5..=10 => self.join(f, k, w),
            _ => false,
        }
    }

    // Whether the heap w fits node k, as a model's heap does: the node holds, and no path is too long.
    pub fn fits(&self, f: &Table, k: usize, w: u64) -> bool
        requires { Ready f.now self.now.setting k × Heap self.now.setting.locs (cells w) }
        ensures { Is result (Fits self.now.setting.profile self.now.setting.vars self.now.setting.locs self.now.setting.path (tree f.now k) (stack_of self.now.setting) (cells w)) }
    {
        self.node_holds(f, k, w) && is_short(self.setting.locs, self.setting.path, w)
    }

    // The same for a node that is a child. With two callers `join` is compiled apart, so that an atom saves no registers: all
    // formulas are judged a tenth to a third faster. A negation is judged here and not there, for the same reason.
    #[cycle(join)]
    fn child_holds(&self, f: &Table, k: usize, w: u64) -> bool
        requires { Ready f.now self.now.setting k × Heap self.now.setting.locs (cells w) }
        ensures { result ≡ truth_at f.now self.now.setting k (cells w) }
    {
        match f[3 * k] {
            1..=4 => atom(f, k, &self.setting, w),
            8 => !self.side_holds(f, k, 0, w),
            5..=10 => self.join(f, k, w),
            _ => false,
        }
    }

    // Whether node k's child on that side holds: a on side 0, b on side 1.
    #[cycle(join)]
    fn side_holds(&self, f: &Table, k: usize, side: usize, w: u64) -> bool
        requires { Joined f.now self.now.setting k × Heap self.now.setting.locs (cells w) × (side < 2) }
        ensures { result ≡ truth_at f.now self.now.setting (operand_of f.now k side) (cells w) }
    {
        self.child_holds(f, usize::from(f[3 * k + 1 + side]), w)
    }

    // Whether a holds on g and b on h: a before b, and b only where it can still decide.
    #[cycle(join)]
    fn both(&self, f: &Table, k: usize, g: u64, h: u64) -> bool
        requires { Joined f.now self.now.setting k × Heap self.now.setting.locs (cells g) × Heap self.now.setting.locs (cells h) }
        ensures { result ≡ andb (first_at f.now self.now.setting k (cells g)) (second_at f.now self.now.setting k (cells h)) }
    {
        self.side_holds(f, k, 0, g) && self.side_holds(f, k, 1, h)
    }

    // Operators 5 to 10, over lower nodes.
    #[cycle(join)]
    fn join(&self, f: &Table, k: usize, w: u64) -> bool
        requires { Joined f.now self.now.setting k × Heap self.now.setting.locs (cells w) }
        ensures { result ≡ truth_at f.now self.now.setting k (cells w) }
    {
        match f[3 * k] {
            5 => self.both(f, k, w, w),
            6 => self.side_holds(f, k, 0, w) || self.side_holds(f, k, 1, w),
            7 => self.side_holds(f, k, 0, w) && !self.side_holds(f, k, 1, w),
            8 => !self.side_holds(f, k, 0, w),
            9 => self.split(f, k, w).is_some(),
            _ => self.added(f, k, w),
        }
    }

    // The lowest part that serves. The parts are those of the allocated set's stretch in the table of pairs, which goes upward
    // and ends with all of the set.
    #[cycle(join)]
    fn split(&self, f: &Table, k: usize, w: u64) -> Option<u64>
        requires { Joined f.now self.now.setting k × Heap self.now.setting.locs (cells w) }
        ensures { Chosen (serves_at f.now self.now.setting k w) (2 ^ self.now.setting.locs) result }
    {
        let a = taken(w);
        let t = table(self.setting.barred, w);
        let mut i = begin(self.pairs, a);
        loop {
            let m = part_at(self.pairs, i);
            if self.serves(f, k, w, t, m) {
                break Some(m);
            }
            if m == a {
                break None;
            }
            i += 1;
        }
    }

    // Whether part m of w serves, where all its locations are allocated; t is w's table.
    #[cycle(join)]
    fn serves(&self, f: &Table, k: usize, w: u64, t: u64, m: u64) -> bool
        requires { Joined f.now self.now.setting k × Heap self.now.setting.locs (cells w) × Tabled self.now.setting.barred w t × (m < full) × (within self.now.setting.locs m (cells w) ≡ true) }
        ensures { result ≡ serves_at f.now self.now.setting k w m }
    {
        let e = spread(m);
        let g = w & e;
        parts_apart(t, e) && self.both(f, k, g, w ^ g)
    }

    // Whether some added heap serves. Only locations where a cell may be added are filled, from the last down and each digit
    // upward: that is the candidates' order. No added cell may touch the barred locations, which are those of w at which two
    // heaps may not meet.
    #[cycle(join)]
    fn added(&self, f: &Table, k: usize, w: u64) -> bool
        requires { Joined f.now self.now.setting k × Heap self.now.setting.locs (cells w) }
        ensures { Found f.now self.now.setting k w self.now.setting.locs 0 result }
    {
        let barred = met(self.setting.barred, w);
        let l = source_below(w, barred, self.setting.locs);
        if l == 0 {
            return self.both(f, k, 0, w);
        }
        self.fill(f, k, w, barred, l, 0)
    }

    // Whether some heap serves that is g above location l, where a cell may be.
    #[cycle(join)]
    fn fill(&self, f: &Table, k: usize, w: u64, barred: u64, l: u64, g: u64) -> bool
        requires { Joined f.now self.now.setting k × Heap self.now.setting.locs (cells w) × Filled self.now.setting.locs self.now.setting.barred w barred l g × (0 < l) × Source w barred l }
        ensures { Found f.now self.now.setting k w l g result }
    {
        let next = source_below(w, barred, l - 1);
        for d in 0..self.setting.locs + 2 {
            if self.digit(f, k, w, barred, l, next, g, d) {
                return true;
            }
        }
        false
    }

    // The same with digit d at l; the location to fill after l is `next`. Apart from `fill`, since the loop that the two in one are
    // compiled to takes a tenth longer.
    #[cycle(join)]
    fn digit(
        &self,
        f: &Table,
        k: usize,
        w: u64,
        barred: u64,
        l: u64,
        next: u64,
        g: u64,
        d: u64,
    ) -> bool
        requires { Joined f.now self.now.setting k × Heap self.now.setting.locs (cells w) × Filled self.now.setting.locs self.now.setting.barred w barred l g × (0 < l) × Source w barred l × (next < l) × SourceBelow w barred (l - 1) next × (d ≤ suc self.now.setting.locs) }
        ensures { FoundAt f.now self.now.setting k w l g d result }
    {
        if !is_target(barred, d) {
            return false;
        }
        let h = g | placed(d, l);
        if next == 0 {
            return self.both(f, k, h, h | w);
        }
        self.fill(f, k, w, barred, next, h)
    }
}

// The table of pairs for so many locations: the short one takes less of the processor's cache.
fn pairs_for(locs: u64) -> &'static [u16]
    requires { locs ≤ most }
    ensures { Lists locs result.now }
{
    if locs <= FEW {
        return few();
    }
    all()
}

// The same as the judge's, with a table of pairs of its own.
pub fn fits(f: &Table, k: usize, b: &Setting, w: u64) -> bool
    requires { Ready f.now b.now k × Heap b.now.locs (cells w) }
    ensures { Is result (Fits b.now.profile b.now.vars b.now.locs b.now.path (tree f.now k) (stack_of b.now) (cells w)) }
{
    let judge = Judge {
        setting: *b,
        pairs: pairs_for(b.locs),
    };
    judge.fits(f, k, w)
}
