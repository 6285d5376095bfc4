// The facts of a node at one location, for one stack: which digits a heap on which the node holds may have there, and two bounds
// on how many cells point there. Here those of a connective, from its children's, and of a negation.
#![tactic(auto)]

mod fact;

ghost use Rattle.std.specs.Prelude.{◌≡◌, ◌⊎◌, ◌^◌, ◌<◌, ◌≤◌};
ghost use Rattle.logic.specs.Formula.Form.{conj, disj, sep, sept};
ghost use Rattle.logic.specs.Table.{join_of};
ghost use Rattle.cells.specs.Cells.{most};
ghost use Rattle.facts.specs.Known.{Kept, JoinedAs, AnyAs, Together};

pub use fact::Fact;

// The bound of two together; at most 255, which is no bound at all.
fn together(a: u64, b: u64) -> u64
    requires { (a ≤ 255) × (b ≤ 255) }
    ensures { Together a b result }
{
    (a + b).saturating_sub(1).min(255)
}

// m, if the set c has digit 0.
fn kept(m: u64, c: u64) -> u64
    ensures { Kept m c result }
{
    if c % 2 == 1 { m } else { 0 }
}

fn both(a: Fact, b: Fact) -> Fact
    ensures { JoinedAs conj a b result }
{
    Fact {
        digits: a.digits & b.digits,
        cap: a.cap.min(b.cap),
        need: a.need.min(b.need),
    }
}

fn either(a: Fact, b: Fact) -> Fact
    ensures { JoinedAs disj a b result }
{
    if a.digits == 0 {
        return b;
    }
    if b.digits == 0 {
        return a;
    }
    Fact {
        digits: a.digits | b.digits,
        cap: a.cap.max(b.cap),
        need: a.need.max(b.need),
    }
}

fn parted(a: Fact, b: Fact) -> Fact
    ensures { JoinedAs sep a b result }
{
    Fact {
        digits: kept(a.digits, b.digits) | kept(b.digits, a.digits),
        cap: together(a.cap, b.cap),
        need: together(a.need, b.need),
    }
}

fn none_left(m: u64) -> u64
    ensures { (result ≤ 1) × ((m ≡ 0) ⊎ (result ≡ 1)) }
{
    u64::from(m != 0)
}

fn left_of(a: Fact, b: Fact) -> Fact
    ensures { JoinedAs sept a b result }
{
    Fact {
        digits: kept(b.digits, a.digits) | none_left(a.digits & b.digits),
        cap: together(b.cap, a.need),
        need: together(b.need, a.cap),
    }
}

// The set of digit d alone.
pub fn digit_bit(d: u64) -> u64
    requires { d ≤ 15 }
    ensures { (result ≡ 2 ^ d) × (result < 2 ^ 16) }
{
    1 << d
}

// No information: any digit of a heap may stand.
pub fn any_fact(n: u64) -> Fact
    requires { n ≤ most }
    ensures { AnyAs n result }
{
    Fact {
        digits: digit_bit(n + 2) - 1,
        cap: n + 1,
        need: 2,
    }
}

// Operators 5, 6, 9 and 10, from the children's facts.
pub fn join_fact(op: u8, a: Fact, b: Fact) -> Fact
    requires { (5 ≤ op) × (op ≤ 10) × (¬ (op ≡ 7)) × (¬ (op ≡ 8)) }
    ensures { JoinedAs (join_of op) a b result }
{
    match op {
        5 => both(a, b),
        6 => either(a, b),
        9 => parted(a, b),
        _ => left_of(a, b),
    }
}
