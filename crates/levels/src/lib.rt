// What a packed stack and a packed heap show of their blocks.
#![tactic(auto)]

ghost use Rattle.std.specs.Prelude.{◌≡◌, true, suc, ◌+◌, ◌*◌, ◌/◌, ◌^◌, ◌≤◌, ◌<◌, ltb, IfSome};
ghost use Rattle.skips.specs.Blocks.{most_outgoing};
ghost use Rattle.cells.specs.Cells.{most, cells};
ghost use Rattle.skips.specs.Counts.{hit, incoming, above};
ghost use Rattle.laws.specs.Exchange.{exchange};
ghost use Rattle.laws.specs.Renumbering.{renumbered_digit};
ghost use Rattle.levels.specs.Levels.{Tops, Swapped, Worse, OutOfOrder};

use cells::{cell, placed};

// The greatest location of the variables above x.
fn top_above(s: u64, v: u64, x: u64) -> u64
    requires { v ≤ most }
    ensures { Tops s v x result }
{
    let mut top: u64 = 0;
    for y in (x..v).rev() {
        top = top.max(cell(s, y + 1));
    }
    top
}

// 1 if digit d is that of a cell with value l.
fn hits(d: u64, l: u64) -> u64
    requires { l ≤ most }
    ensures { (result ≡ hit d l) × (result ≤ 1) }
{
    u64::from(d == l + 1)
}

// How many of the cells above j, up to n, point to l.
fn pointing(w: u64, j: u64, n: u64, l: u64) -> u64
    requires { (j ≤ n) × (n ≤ most) × (l ≤ most) }
    ensures { (result ≡ incoming n (above (suc j) (cells w)) l) × (result ≤ n) }
{
    let mut r: u64 = 0;
    for i in j..n {
        r += hits(cell(w, i + 1), l);
    }
    r
}

// Location l, where a and a + 1 are exchanged.
fn exchanged(a: u64, l: u64) -> u64
    requires { a < most }
    ensures { result ≡ exchange a (suc a) l }
{
    if l == a {
        a + 1
    } else if l == a + 1 {
        a
    } else {
        l
    }
}

// Digit d, where the values a and a + 1 are exchanged.
fn new_digit(a: u64, d: u64) -> u64
    requires { (a < most) × (d < 256) }
    ensures { (result ≡ renumbered_digit (exchange a (suc a)) d) × (result < 256) }
{
    if d == 0 { 0 } else { exchanged(a, d - 1) + 1 }
}

// The heap with a and a + 1 exchanged.
fn swapped(w: u64, a: u64) -> u64
    requires { (1 ≤ a) × (a < most) }
    ensures { Swapped a w result }
{
    let mut r: u64 = 0;
    for i in 0..cells::MOST {
        let l = i + 1;
        let d = new_digit(a, cell(w, exchanged(a, l)));
        r |= placed(d, l);
    }
    r
}

// Whether g is lower than w in the bytes from r up.
fn lower_from(g: u64, w: u64, r: u64) -> bool
    requires { r < most }
    ensures { result ≡ ltb (g / 2 ^ (8 * r)) (w / 2 ^ (8 * r)) }
{
    (g >> (8 * r)) < (w >> (8 * r))
}

// Where the digits start that are known of the heap with a and a + 1 exchanged, where those above j are known.
fn known_from(a: u64, j: u64) -> u64
    requires { (a < most) × (j ≤ most) }
    ensures { (j ≤ result) × (j ≡ a → suc a ≤ result) × (result ≤ most) }
{
    if j == a { a + 1 } else { j }
}

// Whether a and a + 1 exchanged give a lower heap, whatever stands up to j.
pub fn worse(w: u64, j: u64, a: u64) -> bool
    requires { (1 ≤ a) × (a < most) × (j ≤ most) }
    ensures { result ≡ true → Worse a j w }
{
    let r = known_from(a, j);
    r < cells::MOST && lower_from(swapped(w, a), w, r)
}

// Whether variable x + 1 has a location over 1 + the greatest of the variables above.
fn out_of_order(s: u64, v: u64, x: u64) -> bool
    requires { (v ≤ most) × (x < v) }
    ensures { result ≡ true → OutOfOrder s v x }
{
    let d = cell(s, x + 1);
    d != 0 && top_above(s, v, x + 1) < d - 1
}

// The highest variable whose location is over 1 + the greatest of the variables above, less 1.
pub fn out_of_order_from(s: u64, v: u64) -> Option<u64>
    requires { v ≤ most }
    ensures { IfSome result (λ x. (x < v) × OutOfOrder s v x) }
{
    for x in (0..v).rev() {
        if out_of_order(s, v, x) {
            return Some(x);
        }
    }
    None
}

// The most that can stand at l where the cells above j are known.
fn out_most(w: u64, j: u64, l: u64) -> u64
    requires { l ≤ most }
    ensures { (result ≡ most_outgoing j (cells w) l) × (result ≤ 1) }
{
    let has_some = if j < l { cell(w, l) != 0 } else { l != 0 };
    u64::from(has_some)
}

// Whether more cells above j point to l than may.
pub fn crowded(w: u64, j: u64, n: u64, l: u64, cap: u64) -> bool
    requires { (j ≤ n) × (n ≤ most) × (l ≤ most) × (cap ≤ 255) }
    ensures { result ≡ ltb (most_outgoing j (cells w) l + cap) (incoming n (above (suc j) (cells w)) l + 1) }
{
    out_most(w, j, l) + cap < pointing(w, j, n, l) + 1
}
