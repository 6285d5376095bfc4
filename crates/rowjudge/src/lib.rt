// The judge of rows: whether the last row of a formula's rows holds under an assignment, without a row being written.
#![tactic(auto)]

ghost use Rattle.std.specs.Prelude.{◌≡◌, [], ℕ, ◌+◌, ◌*◌, ◌^◌, ◌≤◌, ◌<◌, length, get_or};
ghost use Rattle.logic.specs.Reflect.{Is};
ghost use Rattle.logic.specs.Tests.{in_part};
ghost use Rattle.logic.specs.Holds.{Holds};
ghost use Rattle.logic.specs.Table.{tree, atom_of, join_of};
ghost use Rattle.logic.specs.Book.{most, nodes, Known};
ghost use Rattle.cells.specs.Cells.{word, cells};
ghost use Rattle.rows.specs.Assignment.{on};
ghost use Rattle.rows.specs.Meaning.{Splits, Apart, Same, Short};
ghost use Rattle.rows.specs.Bounds.{most_arrays};
ghost use Rattle.arrays.specs.Unpacked.{values_in};
ghost use Rattle.rowjudge.specs.Setting.{given, Ready, Within, Judged, JudgedBoth, WithinBoth};

use cells::{cell, is_empty, is_list, is_points, met, spread};
use logic::Profile;
use packing::packed;
use paths::is_short;
use rows::Arrays;

// The profile, the number of variables, of locations, of arrays and of sets, where the sets begin, the stack, packed, and the
// locations at which two heaps may not meet.
#[derive(Clone, Copy)]
pub struct Setting {
    pub profile: Profile,
    pub v: u64,
    pub n: u64,
    pub arrays: usize,
    pub sets: usize,
    pub base: usize,
    pub stack: u64,
    pub barred: u64,
}

// The numbers that the next array and the next set get.
#[derive(Clone, Copy)]
pub struct Next {
    pub array: usize,
    pub set: usize,
}

// Whether a formula's last row holds, and what is next.
#[derive(Clone, Copy)]
pub struct Told {
    pub holds: bool,
    pub next: Next,
}

// The same of two formulas.
#[derive(Clone, Copy)]
pub struct Pair {
    pub first: bool,
    pub second: bool,
    pub next: Next,
}

// Array i on the set m, packed.
fn heap_on(arrays: &Arrays, i: usize, m: u64, n: u64) -> u64
    requires { (i < most_arrays) × (n ≤ most) × (m < 2 ^ n) × ((ℓ : ℕ) → values_in arrays.now i ℓ ≤ n) × (length (get_or arrays.now i []) ≡ most) }
    ensures { (cells result ≡ on (values_in arrays.now i) (in_part m)) × (result < word) }
{
    let row = arrays[i];
    packed(&row, 0, n as usize, true) & spread(m)
}

// A formula, and an assignment over which it is judged: its bytes, its arrays, unpacked, and its setting.
#[derive(Clone, Copy)]
pub struct Judge<'a> {
    pub formula: &'a [u8],
    pub bytes: &'a [u8],
    pub arrays: &'a Arrays,
    pub setting: Setting,
}

impl Judge<'_> {
    // Set s.
    fn set(&self, s: usize) -> u64
        requires { self.now.setting.base + s < length self.now.bytes.now }
        ensures { (result ≡ get_or self.now.bytes.now (self.now.setting.base + s) 0) × (result < 256) }
    {
        u64::from(self.bytes[self.setting.base + s])
    }

    // Array a on set s, packed.
    fn heap_at(&self, a: usize, s: usize) -> u64
        requires { Ready self.now.setting self.now.bytes.now self.now.arrays.now × (a < self.now.setting.arrays) × (s < self.now.setting.sets) }
        ensures { (cells result ≡ on ((given self.now.setting self.now.bytes.now).array a) ((given self.now.setting self.now.bytes.now).set s)) × (result < word) }
    {
        heap_on(self.arrays, a, self.set(s), self.setting.n)
    }

    // Whether an atom over the variables x and y holds on array a and set s.
    fn atom(&self, op: u8, x: u64, y: u64, a: usize, s: usize) -> bool
        requires { Ready self.now.setting self.now.bytes.now self.now.arrays.now × (a < self.now.setting.arrays) × (s < self.now.setting.sets) × (1 ≤ op) × (op ≤ 4) × (x ≤ self.now.setting.v) × (y ≤ self.now.setting.v) }
        ensures { Is result (Holds self.now.setting.profile self.now.setting.v self.now.setting.n (atom_of op x y) (given self.now.setting self.now.bytes.now).stack (on ((given self.now.setting self.now.bytes.now).array a) ((given self.now.setting self.now.bytes.now).set s))) }
    {
        let w = self.heap_at(a, s);
        let b = cell(self.setting.stack, x);
        let c = cell(self.setting.stack, y);
        match op {
            1 => b == c && is_empty(w),
            2 => b != c && is_empty(w),
            3 => is_points(b, c, w),
            _ => is_list(self.setting.n, b, c, w),
        }
    }

    // SPLIT.
    fn is_split(&self, s: usize, s1: usize, s2: usize) -> bool
        requires { (length self.now.bytes.now ≡ self.now.setting.base + self.now.setting.sets) × (self.now.setting.base ≡ self.now.setting.v + self.now.setting.arrays * self.now.setting.n) × (s < self.now.setting.sets) × (s1 < self.now.setting.sets) × (s2 < self.now.setting.sets) }
        ensures { Is result (Splits ((given self.now.setting self.now.bytes.now).set s) ((given self.now.setting self.now.bytes.now).set s1) ((given self.now.setting self.now.bytes.now).set s2)) }
    {
        let m = self.set(s);
        let x = self.set(s1);
        let y = self.set(s2);
        x & y == 0 && x | y == m
    }

    // APART, where the profile asks for it.
    fn is_apart(&self, a: usize, s1: usize, s2: usize) -> bool
        requires { Ready self.now.setting self.now.bytes.now self.now.arrays.now × (a < self.now.setting.arrays) × (s1 < self.now.setting.sets) × (s2 < self.now.setting.sets) }
        ensures { Is result (Apart self.now.setting.profile self.now.setting.v (given self.now.setting self.now.bytes.now).stack ((given self.now.setting self.now.bytes.now).array a) ((given self.now.setting self.now.bytes.now).set s1) ((given self.now.setting self.now.bytes.now).set s2)) }
    {
        let x = met(self.setting.barred, self.heap_at(a, s1));
        let y = met(self.setting.barred, self.heap_at(a, s2));
        x & y == 0
    }

    // SAME.
    fn is_same(&self, a: usize, b: usize, s: usize) -> bool
        requires { Ready self.now.setting self.now.bytes.now self.now.arrays.now × (a < self.now.setting.arrays) × (b < self.now.setting.arrays) × (s < self.now.setting.sets) }
        ensures { Is result (Same ((given self.now.setting self.now.bytes.now).array a) ((given self.now.setting self.now.bytes.now).array b) ((given self.now.setting self.now.bytes.now).set s)) }
    {
        self.heap_at(a, s) == self.heap_at(b, s)
    }

    // LONG, which holds where no path is long.
    pub fn long_holds(&self, a: usize, s: usize, k: u64) -> bool
        requires { Ready self.now.setting self.now.bytes.now self.now.arrays.now × (a < self.now.setting.arrays) × (s < self.now.setting.sets) }
        ensures { Is result (Short ((given self.now.setting self.now.bytes.now).array a) ((given self.now.setting self.now.bytes.now).set s) k) }
    {
        is_short(self.setting.n, k, self.heap_at(a, s))
    }

    // Whether the last row of node k's rows holds, over array a and set s.
    #[cycle(both_join_node)]
    pub fn node(&self, k: usize, a: usize, s: usize, next: Next) -> Told
        requires { Ready self.now.setting self.now.bytes.now self.now.arrays.now × Known self.now.setting.v self.now.formula.now × (k < nodes self.now.formula.now) × Within self.now.setting (tree self.now.formula.now k) a s next.array next.set }
        ensures { Judged self.now.setting self.now.bytes.now (tree self.now.formula.now k) a s next.array next.set result }
    {
        let op = self.formula[3 * k];
        let x = self.formula[3 * k + 1];
        let y = self.formula[3 * k + 2];
        match op {
            1..=4 => Told {
                holds: self.atom(op, u64::from(x), u64::from(y), a, s),
                next,
            },
            5..=10 => self.join(k, op, usize::from(x), usize::from(y), a, s, next),
            _ => Told { holds: false, next },
        }
    }

    // The same of a connective over the nodes x and y.
    #[cycle(both_join_node)]
    fn join(&self, k: usize, op: u8, x: usize, y: usize, a: usize, s: usize, next: Next) -> Told
        requires { Ready self.now.setting self.now.bytes.now self.now.arrays.now × Known self.now.setting.v self.now.formula.now × (k < nodes self.now.formula.now) × (x < k) × (y < k) × (5 ≤ op) × (op ≤ 10) × Within self.now.setting (join_of op (tree self.now.formula.now x) (tree self.now.formula.now y)) a s next.array next.set }
        ensures { Judged self.now.setting self.now.bytes.now (join_of op (tree self.now.formula.now x) (tree self.now.formula.now y)) a s next.array next.set result }
    {
        let i = next.array;
        let j = next.set;
        match op {
            5 => {
                let t = self.both(k, x, y, a, s, s, next);
                Told {
                    holds: t.first && t.second,
                    next: t.next,
                }
            }
            6 => {
                let t = self.both(k, x, y, a, s, s, next);
                Told {
                    holds: t.first || t.second,
                    next: t.next,
                }
            }
            7 => {
                let t = self.both(k, x, y, a, s, s, next);
                Told {
                    holds: t.first && !t.second,
                    next: t.next,
                }
            }
            8 => {
                let t = self.node(x, a, s, next);
                Told {
                    holds: !t.holds,
                    next: t.next,
                }
            }
            9 => {
                let new = Next {
                    array: i,
                    set: j + 2,
                };
                let t = self.both(k, x, y, a, j, j + 1, new);
                Told {
                    holds: t.first
                        && t.second
                        && self.is_split(s, j, j + 1)
                        && self.is_apart(a, j, j + 1),
                    next: t.next,
                }
            }
            _ => {
                let new = Next {
                    array: i + 1,
                    set: j + 2,
                };
                let t = self.both(k, x, y, i, j, j + 1, new);
                Told {
                    holds: t.first
                        && t.second
                        && self.is_split(j + 1, j, s)
                        && self.is_apart(i, j, s)
                        && self.is_same(a, i, s),
                    next: t.next,
                }
            }
        }
    }

    // The same of the nodes x and y, over one array and two sets.
    #[cycle(both_join_node)]
    fn both(&self, k: usize, x: usize, y: usize, a: usize, s: usize, t: usize, next: Next) -> Pair
        requires { Ready self.now.setting self.now.bytes.now self.now.arrays.now × Known self.now.setting.v self.now.formula.now × (k < nodes self.now.formula.now) × (x < k) × (y < k) × WithinBoth self.now.setting (tree self.now.formula.now x) (tree self.now.formula.now y) a s t next.array next.set }
        ensures { JudgedBoth self.now.setting self.now.bytes.now (tree self.now.formula.now x) (tree self.now.formula.now y) a s t next.array next.set result }
    {
        let u = self.node(x, a, s, next);
        let w = self.node(y, a, t, u.next);
        Pair {
            first: u.holds,
            second: w.holds,
            next: w.next,
        }
    }
}
