// The nodes of what has been read of a text, in order of completion.
#![tactic(auto)]

ghost use Rattle.std.specs.Prelude.{◌≡◌, [], ◌∷◌, ◌-◌, ◌*◌, ◌<◌, ◌≤◌, length};
ghost use Rattle.logic.specs.Book.{most_nodes};
ghost use Rattle.grammar.specs.Grammar.{adds};
ghost use Rattle.grammar.specs.Phrase.{joins, relates};
ghost use Rattle.grammar.specs.Phrase.Join.{wand_word};
ghost use Rattle.grammar.specs.Listing.{listing};
ghost use Rattle.grammar.specs.Meaning.{atom_form};
ghost use Rattle.words.specs.Words.{join_of, atom_of};

use logic::{NODES, Table};
use words::{Atom, Join};

// The nodes so far, and how many they are. The table has room for the most.
#[derive(Clone, Copy)]
pub struct Nodes {
    pub table: Table,
    pub count: usize,
    pub ghost long: { length table ≡ 3 * most_nodes },
    pub ghost few: { count ≤ most_nodes },
}

impl Nodes {
    ghost use Rattle.draft.specs.Drafts.{join_tail, any_tail, Adds, NodesIs};

    // One node behind the others.
    fn with_node(&mut self, op: u8, a: u8, b: u8)
        requires { self.old.count < most_nodes }
        ensures { Adds self.old 1 (op ∷ a ∷ b ∷ []) self.new }
    {
        let k = 3 * self.count;
        self.table[k] = op;
        self.table[k + 1] = a;
        self.table[k + 2] = b;
        self.count += 1;
    }

    // An item of one node. None where the nodes are too many.
    pub fn one_node(&mut self, op: u8, a: u8, b: u8) -> Option<()>
        ensures { NodesIs self.old 1 (op ∷ a ∷ b ∷ []) result self.new }
    {
        if NODES < self.count + 1 {
            return None;
        }
        self.with_node(op, a, b);
        Some(())
    }

    // A negation of the last node.
    pub fn denied(&mut self) -> Option<()>
        requires { 0 < self.old.count }
        ensures { NodesIs self.old 1 (8 ∷ (self.old.count - 1) ∷ 0 ∷ []) result self.new }
    {
        self.one_node(8, (self.count - 1) as u8, 0)
    }

    // A wand: the negation of a septraction of the formula before node m with the negation of the last node.
    fn wand(&mut self, m: usize) -> Option<()>
        requires { (0 < m) × (m < self.old.count) }
        ensures { NodesIs self.old 3 (join_tail wand_word m self.old.count) result self.new }
    {
        let n = self.count;
        if NODES < n + 3 {
            return None;
        }
        self.with_node(8, (n - 1) as u8, 0);
        self.with_node(10, (m - 1) as u8, n as u8);
        self.with_node(8, (n + 1) as u8, 0);
        Some(())
    }

    // A list of two formulas, the first of which ends before node m, the second at the last.
    pub fn joined(&mut self, word: Join, m: usize) -> Option<()>
        requires { (0 < m) × (m < self.old.count) }
        ensures { NodesIs self.old (adds (joins (join_of word))) (join_tail (join_of word) m self.old.count) result self.new }
    {
        let a = (m - 1) as u8;
        let b = (self.count - 1) as u8;
        match word {
            Join::And => self.one_node(5, a, b),
            Join::Or => self.one_node(6, a, b),
            Join::Sep => self.one_node(9, a, b),
            Join::Wand => self.wand(m),
        }
    }

    // Operator 1 or 2 that holds on any heap.
    fn anywhere(&mut self, op: u8, x: u8, y: u8) -> Option<()>
        ensures { NodesIs self.old 4 (any_tail op x y self.old.count) result self.new }
    {
        let n = self.count;
        if NODES < n + 4 {
            return None;
        }
        self.with_node(op, x, y);
        self.with_node(2, 0, 0);
        self.with_node(8, (n + 1) as u8, 0);
        self.with_node(9, n as u8, (n + 2) as u8);
        Some(())
    }

    // A list of two terms.
    pub fn related(&mut self, word: Atom, x: u8, y: u8) -> Option<()>
        ensures { NodesIs self.old (adds (relates (atom_of word))) (listing self.old.count (atom_form (atom_of word) x y)) result self.new }
    {
        match word {
            Atom::Equal => self.anywhere(1, x, y),
            Atom::Distinct => self.anywhere(2, x, y),
            Atom::Pto => self.one_node(3, x, y),
            Atom::Ls => self.one_node(4, x, y),
        }
    }
}
