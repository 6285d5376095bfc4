// The own rows of each operator: an atom's, those of operator 7, and those of operators 9 and 10; and the last two rows.
#![tactic(auto)]

ghost use Rattle.std.specs.Prelude.{◌≡◌, [], ◌∷◌, ◌+◌, ◌-◌, ◌≤◌, ◌<◌};
ghost use Rattle.logic.specs.declared.Profile.TheVariants.{Strong};
ghost use Rattle.logic.specs.Table.{atom_of};
ghost use Rattle.rows.specs.Row.{fields_of, bytes_of};
ghost use Rattle.rows.specs.Row.Row.{AND, NOT, CHAIN, APART, LONG};
ghost use Rattle.rows.specs.Table.{also, also_apart, apart_row_count, sep_rows, sept_rows, chains as chains_to, ors as ors_to};
ghost use Rattle.rowbytes.specs.Written.{Puts, Space, Kept};
ghost use Rattle.ownrows.specs.Encoded.{Room, Encoded};

use logic::Profile;
use rowbytes::{Writer, plain};
use rows::Fields;

fn chain(a: u16, s: u16, x: u16, y: u16, k: u8) -> Fields
    ensures { result ≡ fields_of (CHAIN a s x y k) }
{
    Fields {
        op: 6,
        k,
        a,
        b: s,
        c: x,
        d: y,
    }
}

// Writes CHAIN 0 to n.
fn put_chains(w: &mut Writer, a: u16, s: u16, x: u16, y: u16, n: u8)
    requires { (n < 255) × Space w.old.next (n + 1) w.old.out.now }
    ensures kept { Kept w.old w.new }
    ensures puts { Puts w.old.next (n + 1) 0 0 (bytes_of (chains_to a s x y (n + 1))) w.new.next w.old.out.now w.new.out.now }
{
    for k in 0..n + 1 {
        w.put_row(chain(a, s, x, y, k));
    }
}

// Writes the n ORs behind the chains, which begin at row r.
fn put_ors(w: &mut Writer, r: u16, n: u8)
    requires { (r + n < w.old.next.row) × Space w.old.next n w.old.out.now }
    ensures kept { Kept w.old w.new }
    ensures puts { Puts w.old.next n 0 0 (bytes_of (ors_to r w.old.next.row n)) w.new.next w.old.out.now w.new.out.now }
{
    let mut last = r;
    for k in 0..n {
        let next = w.next.row;
        w.put_or(last, r + u16::from(k) + 1);
        last = next;
    }
}

// Writes the rows of an atom over array a and set s.
pub fn put_atom(w: &mut Writer, op: u8, x: u16, y: u16, n: u8, a: u16, s: u16)
    requires { (1 ≤ op) × (op ≤ 4) × (n < 255) × Room Strong n (atom_of op x y) w.old.next w.old.out.now }
    ensures kept { Kept w.old w.new }
    ensures rows { Encoded Strong n (atom_of op x y) a s w.old.next w.new.next w.old.out.now w.new.out.now }
{
    match op {
        1 => w.put_pair(plain(1, x, y, 0), plain(3, s, 0, 0)),
        2 => w.put_pair(plain(2, x, y, 0), plain(3, s, 0, 0)),
        3 => w.put_pair(plain(4, s, x, 0), plain(5, a, x, y)),
        _ => {
            let r = w.next.row;
            put_chains(w, a, s, x, y, n);
            put_ors(w, r, n);
        }
    }
}

// Writes the own rows of operator 7; the row after a's tree is l.
pub fn put_but(w: &mut Writer, l: u16)
    requires { (0 < l) × (0 < w.old.next.row) × Space w.old.next 2 w.old.out.now }
    ensures kept { Kept w.old w.new }
    ensures puts { Puts w.old.next 2 0 0 (bytes_of (NOT (w.old.next.row - 1) ∷ AND (l - 1) w.old.next.row ∷ [])) w.new.next w.old.out.now w.new.out.now }
{
    let r = w.next.row;
    w.put_not(r - 1);
    w.put_and(l - 1, r);
}

// Writes APART over array a and the sets i and j, and its AND, where the profile asks for them.
fn put_apart(w: &mut Writer, profile: Profile, a: u16, i: u16, j: u16)
    requires { (0 < w.old.next.row) × Space w.old.next (apart_row_count profile) w.old.out.now }
    ensures kept { Kept w.old w.new }
    ensures puts { Puts w.old.next (apart_row_count profile) 0 0 (bytes_of (also_apart profile (w.old.next.row - 1) (APART a i j))) w.new.next w.old.out.now w.new.out.now }
{
    match profile {
        Profile::Strong => w.put_also(plain(11, a, i, j)),
        Profile::Ordinary => {}
    }
}

// Writes the own rows of operator 9, whose new sets are i and i + 1.
pub fn put_sep(w: &mut Writer, profile: Profile, l: u16, a: u16, s: u16, i: u16)
    requires { (0 < l) × (0 < w.old.next.row) × (i + 1 < 65536) × Space w.old.next (3 + apart_row_count profile) w.old.out.now }
    ensures kept { Kept w.old w.new }
    ensures puts { Puts w.old.next (3 + apart_row_count profile) 0 0 (bytes_of (sep_rows profile a s i (i + 1) l w.old.next.row)) w.new.next w.old.out.now w.new.out.now }
{
    let r = w.next.row;
    w.put_and(l - 1, r - 1);
    w.put_also(plain(10, s, i, i + 1));
    put_apart(w, profile, a, i, i + 1);
}

// Writes the own rows of operator 10, whose new array is b and whose new sets are i and i + 1.
pub fn put_sept(w: &mut Writer, profile: Profile, l: u16, a: u16, b: u16, s: u16, i: u16)
    requires { (0 < l) × (0 < w.old.next.row) × (i + 1 < 65536) × Space w.old.next (5 + apart_row_count profile) w.old.out.now }
    ensures kept { Kept w.old w.new }
    ensures puts { Puts w.old.next (5 + apart_row_count profile) 0 0 (bytes_of (sept_rows profile a b s i (i + 1) l w.old.next.row)) w.new.next w.old.out.now w.new.out.now }
{
    let r = w.next.row;
    w.put_and(l - 1, r - 1);
    w.put_also(plain(10, i + 1, i, s));
    put_apart(w, profile, b, i, s);
    w.put_also(plain(12, a, b, s));
}

fn long(p: u8) -> Fields
    ensures { result ≡ fields_of (LONG 0 0 p) }
{
    Fields {
        op: 13,
        k: p,
        a: 0,
        b: 0,
        c: 0,
        d: 0,
    }
}

// Writes the last two rows, LONG over array 0 and set 0 and the AND of the formula's row with it.
pub fn put_long(w: &mut Writer, p: u8)
    requires { (0 < w.old.next.row) × Space w.old.next 2 w.old.out.now }
    ensures kept { Kept w.old w.new }
    ensures puts { Puts w.old.next 2 0 0 (bytes_of (also (w.old.next.row - 1) (LONG 0 0 p))) w.new.next w.old.out.now w.new.out.now }
{
    w.put_also(long(p));
}
