// The way through a range of candidates in their order, past the blocks that hold no lowest fit: from stack to stack, and in each
// stack from heap to heap.
#![tactic(auto)]

ghost use Rattle.std.specs.Prelude.{◌≡◌, suc, ◌+◌, ◌≤◌, ◌<◌, IfSome};
ghost use Rattle.logic.specs.Table.{Sound, tree};
ghost use Rattle.logic.specs.Candidates.{total};
ghost use Rattle.logic.specs.Search.{CandidateFits};
ghost use Rattle.cells.specs.Cells.{most};
ghost use Rattle.pairs.specs.Pairs.{Lists};
ghost use Rattle.judge.specs.Listing.{lists_prop};
ghost use Rattle.judge.specs.Setting.{room};
ghost use Rattle.candidates.specs.Counter.{WithinBounds, number, Passes};
ghost use Rattle.skips.specs.Blocks.{weight, after};
ghost use Rattle.sweep.specs.Sweep.{low_of, Given, Facing};

use blocks::Known;
use candidates::{Candidate, number_after};
use cells::barred;
use judge::{Judge, Setting};
use levels::out_of_order_from;
use logic::{Profile, Table};
use rootfacts::{cap_at, is_hopeless, root_facts};

// A candidate that fits, and its number.
#[derive(Clone, Copy)]
pub struct Found {
    pub number: u64,
    pub at: Candidate,
}

// The first candidate after the block at level j, or after c itself.
fn go_on(c: Candidate, j: Option<u64>) -> Candidate
    requires { WithinBounds c × IfSome j (λ x. x < c.locs) }
    ensures { Passes (weight c.locs (low_of j)) c result }
{
    match j {
        Some(j) => c.pass(j),
        None => c.next(),
    }
}

// Whether the entry at l bars a digit or a number of cells.
fn is_barring(known: &Known, l: u64) -> bool
    requires { l ≤ most }
{
    cap_at(known.facts, l) <= known.locs || known.facts[l as usize] % 65536 + 1 != 4 << known.locs
}

// Whether there is anything to look for: an entry that bars something, or two neighbours that are not named. Either answer is right,
// and saves time where it is true.
fn is_looking(known: &Known) -> bool {
    for i in 0..known.locs {
        if is_barring(known, i + 1) {
            return true;
        }
    }
    known.unnamed & (known.unnamed >> 1) != 0
}

// The way through the heaps of one stack. The judge's setting has that stack, of which `known` has the facts and the unnamed
// locations. A step jumps past a block, so this is no loop over a range.
fn heaps(
    judge: &Judge,
    f: &Table,
    k: usize,
    known: &Known,
    first: Candidate,
    from: u64,
    to: u64,
) -> Option<Found>
    requires { Facing f.now judge.now.setting k known.now.facts.now known.now.unnamed first from to × (known.now.locs ≡ judge.now.setting.locs) }
    ensures { Given judge.now.setting.vars judge.now.setting.locs (CandidateFits judge.now.setting.profile judge.now.setting.vars judge.now.setting.locs judge.now.setting.path (tree f.now k)) from to result }
{
    let n = judge.setting.locs;
    let looking = is_looking(known);
    let mut c = first;
    let mut i = from;
    while i < to {
        let j = if looking { known.level(c.heap) } else { None };
        if j.is_none() && judge.fits(f, k, c.heap) {
            return Some(Found { number: i, at: c });
        }
        c = go_on(c, j);
        i = number_after(n, i, j.unwrap_or(0));
    }
    None
}

// What is looked for, the same for every candidate: one of these bounds that fits that node of the table in the profile. pairs is a
// table of sets and parts for as many locations or more.
#[derive(Clone, Copy)]
pub struct Quest<'a> {
    pub profile: Profile,
    pub table: &'a Table,
    pub node: usize,
    pub vars: u64,
    pub locs: u64,
    pub path: u64,
    pub pairs: &'a [u16],
    pub ghost lists: { Lists locs pairs.now } by { lists_prop locs pairs.now },
}

impl Quest<'_> {
    // The way through the candidates with c's stack.
    fn stack(&self, c: Candidate, from: u64, to: u64) -> Option<Found>
        requires { (self.now.node < room) × Sound c.vars self.now.table.now (suc self.now.node) × WithinBounds c × (number c ≡ from) × (to ≤ after (weight c.locs c.locs) from) × (to ≤ total c.vars c.locs) × (c.locs ≡ self.now.locs) }
        ensures { Given c.vars c.locs (CandidateFits self.now.profile c.vars c.locs self.now.path (tree self.now.table.now self.now.node)) from to result }
    {
        let v = c.vars;
        let n = c.locs;
        let t = root_facts(self.table, self.node, n, c.stack);
        if is_hopeless(&t) {
            return None;
        }
        let judge = Judge {
            setting: Setting {
                vars: v,
                locs: n,
                path: self.path,
                stack: c.stack,
                barred: barred(self.profile, v, n, c.stack),
                profile: self.profile,
            },
            pairs: self.pairs,
        };
        let known = Known {
            locs: n,
            unnamed: barred(Profile::Strong, v, n, c.stack),
            facts: &t,
        };
        heaps(&judge, self.table, self.node, &known, c, from, to)
    }

    // The way through the candidates from `from` to `to`. A stack with a variable out of order is passed over, with all that share the
    // variables above that one, so this is no loop over a range.
    pub fn through(&self, from: u64, to: u64) -> Option<Found>
        requires { (self.now.node < room) × Sound self.now.vars self.now.table.now (suc self.now.node) × (self.now.vars ≤ most) × (self.now.locs ≤ most) × (to ≤ total self.now.vars self.now.locs) }
        ensures { Given self.now.vars self.now.locs (CandidateFits self.now.profile self.now.vars self.now.locs self.now.path (tree self.now.table.now self.now.node)) from to result }
    {
        let mut c = Candidate::at(self.vars, self.locs, from);
        let mut i = from;
        while i < to {
            let x = out_of_order_from(c.stack, self.vars);
            let free = x.unwrap_or(0);
            let next = number_after(self.locs, i, self.locs + free);
            if x.is_none() {
                if let Some(found) = self.stack(c, i, next.min(to)) {
                    return Some(found);
                }
            }
            c = c.pass_stack(free);
            i = next;
        }
        None
    }
}
