// Stacks, heaps and sets of locations, each in one number, so that a part of a heap is a mask away. specs/Cells.antt says
// which numbers these are.
#![tactic(auto)]

ghost use Rattle.std.specs.Prelude.{◌≡◌, suc, ◌≤◌, ◌<◌, ◌^◌, leb};
ghost use Rattle.std.specs.Int.Bits.{bit_and, bit_xor};
ghost use Rattle.logic.specs.Heap.{Heap, Empty};
ghost use Rattle.logic.specs.declared.Profile.TheVariants.{Strong};
ghost use Rattle.logic.specs.Holds.{Points, Segment};
ghost use Rattle.logic.specs.Tests.{pick};
ghost use Rattle.logic.specs.Reflect.{Is};
ghost use Rattle.cells.specs.Cells.{most, full, cells, Placed, Spread, Taken, Barred, Touched, Tabled, Folded, Clear, Values, Met, Source, SourceBelow, Target};

use logic::Profile;

// The most locations, and the most variables, that fit in one number.
pub const MOST: u64 = 8;

// What w has at l.
pub fn cell(w: u64, l: u64) -> u64
    requires { l ≤ most }
    ensures { result ≡ cells w l }
{
    if l == 0 {
        return 0;
    }
    (w >> (8 * (l - 1))) % 256
}

// A heap with d at l and nothing elsewhere.
pub fn placed(d: u64, l: u64) -> u64
    requires { (d < 256) × (1 ≤ l) × (l ≤ most) }
    ensures { Placed d l result }
{
    d << (8 * (l - 1))
}

// A full byte for each location of part m. The product puts bits 0 to 6 into their bytes without a carry; bit 7 would
// overlap and is put beside them.
pub fn spread(m: u64) -> u64
    requires { m < full }
    ensures { Spread m result }
{
    ((((m % 128) * 0x0002_0408_1020_4081) & 0x0001_0101_0101_0101) | ((m / 128) << 56)) * 255
}

// The part that is allocated, without a loop. A byte that is not 0 carries into its top bit; each product then puts the top
// bits of four bytes side by side.
pub fn taken(w: u64) -> u64
    requires { Heap most (cells w) }
    ensures { Taken w result }
{
    let tops = (w + 0x7f7f_7f7f_7f7f_7f7f) & 0x8080_8080_8080_8080;
    let low = (((tops % 0x1_0000_0000) * 0x0020_4081) >> 28) % 16;
    let high = (((tops >> 32) * 0x0020_4081) >> 28) % 16;
    low + 16 * high
}

// Bit l.
pub fn bit(l: u64) -> u64
    requires { l ≤ suc most }
    ensures { result ≡ 2 ^ l }
{
    1 << l
}

// Of the set u, the location and the value of a cell at l with digit d. The halving drops nil, which is in no set.
fn touched(u: u64, l: u64, d: u64) -> u64
    requires { (u < full) × (l ≤ most) × (d ≤ suc most) }
    ensures { Touched u l d result }
{
    if d == 0 {
        return 0;
    }
    ((bit(l) | bit(d - 1)) / 2) & u
}

// What each cell of w touches of the set u, in the cell's byte.
pub fn table(u: u64, w: u64) -> u64
    requires { (u < full) × Heap most (cells w) }
    ensures { Tabled u w result }
{
    if u == 0 {
        return 0;
    }
    let mut t: u64 = 0;
    for l in 1..=MOST {
        t |= placed(touched(u, l, cell(w, l)), l);
    }
    t
}

// The union of the sets in t's bytes.
fn fold(t: u64) -> u64
    ensures { Folded t result }
{
    let y = t | (t >> 32);
    let z = y | (y >> 16);
    (z | (z >> 8)) % 256
}

// Strong disjointness of the part with mask e from the rest, where t is the table of the whole.
pub fn parts_apart(t: u64, e: u64) -> bool
    ensures { Is result (Clear (bit_and t e) (bit_xor t (bit_and t e))) }
{
    if t == 0 {
        return true;
    }
    let q = t & e;
    fold(q) & fold(t ^ q) == 0
}

// The set of w's values. Digit d is noted in bit d, so the two lowest bits are for no value and for nil's.
fn values(w: u64) -> u64
    requires { Heap most (cells w) }
    ensures { Values w result }
{
    let mut v: u64 = 0;
    for l in 1..=MOST {
        v |= bit(cell(w, l));
    }
    v / 4
}

// Those of the set u that are locations of w: where u is the unnamed ones, no cell that is added to w may touch them.
pub fn met(u: u64, w: u64) -> u64
    requires { (u < full) × Heap most (cells w) }
    ensures { Met u w result }
{
    if u == 0 {
        return 0;
    }
    (values(w) | taken(w)) & u
}

fn is_source(w: u64, met: u64, l: u64) -> bool
    requires { (1 ≤ l) × (l ≤ most) }
    ensures { Is result (Source w met l) }
{
    cell(w, l) == 0 && (met >> (l - 1)) % 2 == 0
}

// The last location up to `top` at which a cell may be added to w, or 0.
pub fn source_below(w: u64, met: u64, top: u64) -> u64
    requires { top ≤ most }
    ensures { SourceBelow w met top result }
{
    for l in (1..=top).rev() {
        if is_source(w, met, l) {
            return l;
        }
    }
    0
}

// Whether an added cell may have digit d.
pub fn is_target(met: u64, d: u64) -> bool
    requires { (met < full) × (d ≤ suc most) }
    ensures { Is result (Target met d) }
{
    ((4 * met) >> d) % 2 == 0
}

pub fn is_empty(w: u64) -> bool
    ensures { Is result (Empty (cells w)) }
{
    w == 0
}

pub fn is_points(a: u64, b: u64, w: u64) -> bool
    requires { (a ≤ most) × (b ≤ most) }
    ensures { Is result (Points a b (cells w)) }
{
    a != 0 && w == placed(b + 1, a)
}

// A list segment: each cell that is left behind is taken out, so no location is met twice. It has at most n links, since a heap
// over n locations has no more cells.
pub fn is_list(n: u64, a: u64, b: u64, w: u64) -> bool
    requires { (n ≤ most) × (a ≤ most) × Heap n (cells w) }
    ensures { Is result (Segment a b (cells w)) }
{
    let mut g = w;
    let mut x = a;
    for _ in 0..n {
        if x == b {
            return is_empty(g);
        }
        let d = cell(g, x);
        if d == 0 {
            return false;
        }
        g ^= placed(d, x);
        x = d - 1;
    }
    x == b && is_empty(g)
}

// Bit d, where d is at most n.
fn bit_up_to(d: u64, n: u64) -> u64
    requires { n ≤ most }
    ensures { (result ≡ pick (leb d n) (2 ^ d) 0) × (result < 2 ^ suc n) }
{
    if d <= n { bit(d) } else { 0 }
}

// The locations up to n that are not named. Location l is noted in bit l; the halving drops nil, which is in no set.
fn unnamed(v: u64, n: u64, s: u64) -> u64
    requires { (v ≤ most) × (n ≤ most) }
    ensures { Barred Strong v n (cells s) result }
{
    let mut named: u64 = 0;
    for i in 0..v {
        named |= bit_up_to(cell(s, i + 1), n);
    }
    ((bit(n + 1) - 1) ^ named) / 2
}

// The locations at which two heaps may not meet: the strong profile bars those that are not named, the ordinary one none.
pub fn barred(profile: Profile, v: u64, n: u64, s: u64) -> u64
    requires { (v ≤ most) × (n ≤ most) }
    ensures { Barred profile v n (cells s) result }
{
    match profile {
        Profile::Strong => unnamed(v, n, s),
        Profile::Ordinary => 0,
    }
}
