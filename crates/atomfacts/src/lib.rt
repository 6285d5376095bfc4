// The facts of an atom at one location, from the locations of its variables.
#![tactic(auto)]

ghost use Rattle.std.specs.Prelude.{◌≡◌, true, suc, ◌^◌, ◌<◌, ◌≤◌};
ghost use Rattle.logic.specs.Formula.Form.{same, diff, pts, ls};
ghost use Rattle.logic.specs.Table.{atom_of};
ghost use Rattle.cells.specs.Cells.{most};
ghost use Rattle.skips.specs.Counts.{hit};
ghost use Rattle.skips.specs.Facts.{cap_of_path};
ghost use Rattle.atomfacts.specs.Atoms.{AtomAs, Dropped, PointsSet, ListSet};

use facts::{Fact, digit_bit};

// The facts of a node that holds on the empty heap only, and of one that holds on none.
const EMPTY: Fact = Fact {
    digits: 1,
    cap: 1,
    need: 1,
};

const NOTHING: Fact = Fact {
    digits: 0,
    cap: 0,
    need: 0,
};

fn same_fact(a: u64, b: u64, n: u64, l: u64) -> Fact
    ensures { AtomAs same n l a b result }
{
    if a == b { EMPTY } else { NOTHING }
}

fn diff_fact(a: u64, b: u64, n: u64, l: u64) -> Fact
    ensures { AtomAs diff n l a b result }
{
    if a == b { NOTHING } else { EMPTY }
}

fn path_cap(a: u64, b: u64, l: u64) -> u64
    ensures { (result ≡ cap_of_path a b l) × (result ≤ 2) }
{
    1 + u64::from(b == l) - u64::from(a == l)
}

// The set m, without digit d where that is asked.
fn drop_if(m: u64, d: u64, yes: bool) -> u64
    requires { (m < 2 ^ 16) × (d ≤ 15) }
    ensures { Dropped m d (yes ≡ true) result }
{
    if yes { m ^ (m & digit_bit(d)) } else { m }
}

fn points_digits(a: u64, b: u64, l: u64) -> u64
    requires { b ≤ most }
    ensures { PointsSet a b l result }
{
    if l == a { digit_bit(b + 1) } else { 1 }
}

fn points_fact(a: u64, b: u64, n: u64, l: u64) -> Fact
    requires { b ≤ most }
    ensures { AtomAs pts n l a b result }
{
    if a == 0 {
        return NOTHING;
    }
    Fact {
        digits: points_digits(a, b, l),
        cap: path_cap(a, b, l),
        need: path_cap(b, a, l),
    }
}

// The digits at l of a list from a to another location b.
fn list_digits(a: u64, b: u64, n: u64, l: u64) -> u64
    requires { (a ≤ n) × (l ≤ n) × (n ≤ most) }
    ensures { ListSet n a b l result }
{
    if l == 0 || l == b {
        return 1;
    }
    let all = digit_bit(n + 2) - 1;
    let not_start = drop_if(all, a + 1, true);
    let not_loop = drop_if(not_start, l + 1, true);
    let not_nil = drop_if(not_loop, 1, b != 0);
    drop_if(not_nil, 0, l == a)
}

fn list_fact(a: u64, b: u64, n: u64, l: u64) -> Fact
    requires { (a ≤ n) × (l ≤ n) × (n ≤ most) }
    ensures { AtomAs ls n l a b result }
{
    if a == b {
        return EMPTY;
    }
    if a == 0 {
        return NOTHING;
    }
    Fact {
        digits: list_digits(a, b, n, l),
        cap: path_cap(a, b, l),
        need: path_cap(b, a, l),
    }
}

// Operators 1 to 4, over variables whose locations are a and b.
pub fn atom_fact(op: u8, a: u64, b: u64, n: u64, l: u64) -> Fact
    requires { (1 ≤ op) × (op ≤ 4) × (a ≤ n) × (b ≤ n) × (l ≤ n) × (n ≤ most) }
    ensures { AtomAs (atom_of op) n l a b result }
{
    match op {
        1 => same_fact(a, b, n, l),
        2 => diff_fact(a, b, n, l),
        3 => points_fact(a, b, n, l),
        _ => list_fact(a, b, n, l),
    }
}
