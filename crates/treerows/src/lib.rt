// The rows of a formula's tree: a's tree, b's tree, own rows.
#![tactic(auto)]

ghost use Rattle.std.specs.Prelude.{◌≤◌, ◌<◌};
ghost use Rattle.logic.specs.Table.{op_of, operand_of, tree};
ghost use Rattle.logic.specs.Book.{nodes, KnownTable};
ghost use Rattle.rowbytes.specs.Written.{Kept};
ghost use Rattle.ownrows.specs.Encoded.{Room, Encoded};
ghost use Rattle.treerows.specs.Trees.{Trees, RoomTrees};

use logic::Profile;
use ownrows::{put_atom, put_but, put_sep, put_sept};
use rowbytes::Writer;
use rows::Next;

// What is encoded: a formula over n locations, in a profile.
#[derive(Clone, Copy)]
pub struct Source<'a> {
    pub profile: Profile,
    pub formula: &'a [u8],
    pub n: u8,
    pub ghost few: { n < 255 },
}

impl Source<'_> {
    // Writes the rows of node k over array a and set s.
    #[cycle(both_join_node)]
    pub fn node(&self, w: &mut Writer, k: usize, a: u16, s: u16)
        requires { (k < nodes self.now.formula.now) × KnownTable self.now.formula.now × Room self.now.profile self.now.n (tree self.now.formula.now k) w.old.next w.old.out.now }
        ensures kept { Kept w.old w.new }
        ensures rows { Encoded self.now.profile self.now.n (tree self.now.formula.now k) a s w.old.next w.new.next w.old.out.now w.new.out.now }
    {
        let op = self.formula[3 * k];
        match op {
            1..=4 => {
                let x = self.formula[3 * k + 1];
                let y = self.formula[3 * k + 2];
                put_atom(w, op, u16::from(x), u16::from(y), self.n, a, s);
            }
            5..=10 => self.join(w, k, a, s),
            _ => {}
        }
    }

    // The same of a connective.
    #[cycle(both_join_node)]
    fn join(&self, w: &mut Writer, k: usize, a: u16, s: u16)
        requires { (k < nodes self.now.formula.now) × (5 ≤ op_of self.now.formula.now k) × KnownTable self.now.formula.now × Room self.now.profile self.now.n (tree self.now.formula.now k) w.old.next w.old.out.now }
        ensures kept { Kept w.old w.new }
        ensures rows { Encoded self.now.profile self.now.n (tree self.now.formula.now k) a s w.old.next w.new.next w.old.out.now w.new.out.now }
    {
        let b = w.next.array;
        let i = w.next.set;
        match self.formula[3 * k] {
            5 => {
                let first = self.both(w, k, a, s, s);
                let last = w.next.row - 1;
                w.put_and(first - 1, last);
            }
            6 => {
                let first = self.both(w, k, a, s, s);
                let last = w.next.row - 1;
                w.put_or(first - 1, last);
            }
            7 => {
                let first = self.both(w, k, a, s, s);
                put_but(w, first);
            }
            8 => {
                self.node(w, usize::from(self.formula[3 * k + 1]), a, s);
                let last = w.next.row - 1;
                w.put_not(last);
            }
            9 => {
                w.next.set = i + 2;
                let first = self.both(w, k, a, i, i + 1);
                put_sep(w, self.profile, first, a, s, i);
            }
            _ => {
                w.next = Next {
                    array: b + 1,
                    set: i + 2,
                    ..w.next
                };
                let first = self.both(w, k, b, i, i + 1);
                put_sept(w, self.profile, first, a, b, s, i);
            }
        }
    }

    // The same of node k's children, over one array and two sets; the row after those of the first.
    #[cycle(both_join_node)]
    fn both(&self, w: &mut Writer, k: usize, a: u16, s1: u16, s2: u16) -> u16
        requires { (k < nodes self.now.formula.now) × (5 ≤ op_of self.now.formula.now k) × KnownTable self.now.formula.now × RoomTrees self.now.profile self.now.n (tree self.now.formula.now (operand_of self.now.formula.now k 0)) (tree self.now.formula.now (operand_of self.now.formula.now k 1)) w.old.next 0 w.old.out.now }
        ensures kept { Kept w.old w.new }
        ensures rows { Trees self.now.profile self.now.n (tree self.now.formula.now (operand_of self.now.formula.now k 0)) (tree self.now.formula.now (operand_of self.now.formula.now k 1)) a s1 s2 w.old.next result w.new.next w.old.out.now w.new.out.now }
    {
        let x = usize::from(self.formula[3 * k + 1]);
        let y = usize::from(self.formula[3 * k + 2]);
        self.node(w, x, a, s1);
        let first = w.next.row;
        self.node(w, y, a, s2);
        first
    }
}
