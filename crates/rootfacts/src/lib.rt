// The facts of a node of a table at one location, and of a formula at every location: an entry a location.
#![tactic(auto)]

ghost use Rattle.std.specs.Prelude.{◌≡◌, suc, ◌%◌, ◌/◌, ◌<◌, ◌≤◌, eqb};
ghost use Rattle.logic.specs.Table.{op_of, tree};
ghost use Rattle.logic.specs.Tests.{in_part};
ghost use Rattle.cells.specs.Cells.{most, cells};
ghost use Rattle.rootfacts.specs.NodeFacts.{Readable, KnownAt};
ghost use Rattle.rootfacts.specs.RootFacts.{digits_at, cap_at, Facts, set_size};

use atomfacts::atom_fact;
use cells::cell;
use facts::{Fact, any_fact, join_fact};
use logic::Table;

// Operators 1 to 4, over variables; s packs the stack.
fn atom_at(f: &Table, k: usize, n: u64, s: u64, l: u64) -> Fact
    requires { (op_of f.now k ≤ 4) × Readable f.now k n s × (l ≤ n) }
    ensures { KnownAt f.now k n s l result }
{
    let x = cell(s, u64::from(f[3 * k + 1]));
    let y = cell(s, u64::from(f[3 * k + 2]));
    atom_fact(f[3 * k], x, y, n, l)
}

// The facts of node k of the table f at l, for the packed stack s over n locations. Those of "a and not b" are a's, and a
// negation has none.
fn node_fact(f: &Table, k: usize, n: u64, s: u64, l: u64) -> Fact
    requires { Readable f.now k n s × (l ≤ n) }
    ensures { KnownAt f.now k n s l result }
{
    let op = f[3 * k];
    match op {
        0..=4 => atom_at(f, k, n, s, l),
        7 => node_fact(f, usize::from(f[3 * k + 1]), n, s, l),
        8 => any_fact(n),
        _ => {
            let a = node_fact(f, usize::from(f[3 * k + 1]), n, s, l);
            let b = node_fact(f, usize::from(f[3 * k + 2]), n, s, l);
            join_fact(op, a, b)
        }
    }
}

// An entry for nil and for each location.
pub const ENTRIES: usize = 9;

pub type Entries = [u64; ENTRIES];

// An entry has the set of digits in the bits below this one, and the cap in those from it on.
const CAP: u64 = 1 << 16;

fn packed(a: Fact) -> u64
    ensures { (result % set_size ≡ a.digits) × (result / set_size ≡ a.cap) }
{
    a.digits + CAP * a.cap
}

// The facts of node k of the table f, for the packed stack s over n locations. Where no digit may stand at some location no heap
// fits, and all entries are 0.
pub fn root_facts(f: &Table, k: usize, n: u64, s: u64) -> Entries
    requires { Readable f.now k n s }
    ensures { Facts n (tree f.now k) (cells s) result }
{
    let mut t = [0u64; ENTRIES];
    for l in 0..n + 1 {
        let a = node_fact(f, k, n, s, l);
        if a.digits == 0 {
            return [0u64; ENTRIES];
        }
        t[l as usize] = packed(a);
    }
    t
}

// Whether digit d may stand at location l.
pub fn may_stand(t: &Entries, l: u64, d: u64) -> bool
    requires { (l ≤ most) × (d ≤ suc most) }
    ensures { result ≡ in_part (digits_at t.now l) (suc d) }
{
    ((t[l as usize] % CAP) >> d) % 2 == 1
}

// How many cells may point to location l, as specs/Facts.antt of crate skips says.
pub fn cap_at(t: &Entries, l: u64) -> u64
    requires { l ≤ most }
    ensures { result ≡ cap_at t.now l }
{
    t[l as usize] / CAP
}

// Whether no heap fits: at nil some digit may stand if one may at every location.
pub fn is_hopeless(t: &Entries) -> bool
    ensures { result ≡ eqb (digits_at t.now 0) 0 }
{
    t[0] % CAP == 0
}
