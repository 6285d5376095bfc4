// The reader of items and lists: a list holds items and an item may be a list.
#![tactic(auto)]

ghost use Rattle.std.specs.Prelude.{ℕ, ◌<◌, ◌≤◌, length};
ghost use Rattle.logic.specs.Reflect.{Is};
ghost use Rattle.grammar.specs.Grammar.{Byte, deepest};
ghost use Rattle.grammar.specs.Machine.{item as an_item, head};
ghost use Rattle.grammar.specs.Phrase.{joins, denies, relates};
ghost use Rattle.grammar.specs.Steps.{waits};
ghost use Rattle.words.specs.Words.{join_of, atom_of, FreeItem};
ghost use Rattle.items.specs.Readings.{step, FinishedIs, ClosedIs, ReadIs};

use draft::Nodes;
use leaves::Refusal;
use names::Names;
use words::{Atom, Join, ListWord, edge, emp, shut, skip, word};

// How deep a list may stand.
const DEEPEST: usize = 16;

// What has been read so far: the nodes and the names.
#[derive(Drop)]
pub struct Draft {
    pub nodes: Nodes,
    pub names: Names,
}

// An item that ends before `end`; None where its nodes are too many.
fn finished(end: usize, nodes: Option<()>) -> Result<usize, Refusal>
    requires { 0 < end }
    ensures { FinishedIs end nodes result }
{
    match nodes {
        Some(()) => Ok(end),
        None => Err(Refusal::ManyNodes(end - 1)),
    }
}

// The closing bracket of a list whose last part ends before `at`; None where its nodes are too many.
fn closed(s: &[u8], at: usize, nodes: Option<()>) -> Result<usize, Refusal>
    requires { at ≤ length s.now }
    ensures { ClosedIs s.now at nodes result }
{
    let end = shut(s, at)?;
    finished(end, nodes)
}

fn opens(s: &[u8], at: usize) -> bool
    ensures { Is result (Byte s.now 40 at) }
{
    at < s.len() && s[at] == b'('
}

// Each reads what it names from `at` on, and gives the place behind it.
impl Draft {
    // `sep.emp`, where neither a blank nor a list stands. It is finished at its last byte, and only then looked behind.
    fn empty(&mut self, s: &[u8], at: usize) -> Result<usize, Refusal>
        requires { (at ≤ length s.now) × FreeItem s.now at }
        ensures { (depth : ℕ) → ReadIs s.now an_item depth at self.old (step result self.new) }
    {
        let end = emp(s, at)?;
        finished(end, self.nodes.one_node(1, 0, 0))?;
        if !edge(s, end) {
            return Err(Refusal::BadText(end));
        }
        Ok(end)
    }

    // The two terms of a list, behind its word, and its closing bracket.
    fn relation(&mut self, s: &[u8], at: usize, word: Atom) -> Result<usize, Refusal>
        requires { at ≤ length s.now }
        ensures { (depth : ℕ) → ReadIs s.now (waits (relates (atom_of word))) depth at self.old (step result self.new) }
    {
        let (first, x) = self.names.operand(s, at, false)?;
        let (second, y) = self.names.operand(s, first, true)?;
        closed(s, second, self.nodes.related(word, x, y))
    }

    // An item inside that many lists.
    #[cycle(item_list_pair_single)]
    pub fn item(&mut self, s: &[u8], at: usize, depth: usize) -> Result<usize, Refusal>
        requires { (at ≤ length s.now) × (depth ≤ deepest) }
        ensures { ReadIs s.now an_item depth at self.old (step result self.new) }
    {
        let from = skip(s, at);
        if opens(s, from) {
            if DEEPEST <= depth {
                return Err(Refusal::BadText(from));
            }
            return self.list(s, from + 1, depth);
        }
        self.empty(s, from)
    }

    // A list inside that many others, behind its opening bracket.
    #[cycle(item_list_pair_single)]
    fn list(&mut self, s: &[u8], at: usize, depth: usize) -> Result<usize, Refusal>
        requires { (at ≤ length s.now) × (depth < deepest) }
        ensures { ReadIs s.now head depth at self.old (step result self.new) }
    {
        let (end, said) = word(s, at)?;
        match said {
            ListWord::Join(c) => self.pair(s, end, depth, c),
            ListWord::Not => self.single(s, end, depth),
            ListWord::Atom(c) => self.relation(s, end, c),
        }
    }

    // The only formula of a list, behind its word, and its closing bracket.
    #[cycle(item_list_pair_single)]
    fn single(&mut self, s: &[u8], at: usize, depth: usize) -> Result<usize, Refusal>
        requires { (at ≤ length s.now) × (depth < deepest) }
        ensures { ReadIs s.now (waits denies) depth at self.old (step result self.new) }
    {
        let only = self.item(s, at, depth + 1)?;
        closed(s, only, self.nodes.denied())
    }

    // The two formulas of a list, behind its word, and its closing bracket.
    #[cycle(item_list_pair_single)]
    fn pair(&mut self, s: &[u8], at: usize, depth: usize, word: Join) -> Result<usize, Refusal>
        requires { (at ≤ length s.now) × (depth < deepest) }
        ensures { ReadIs s.now (waits (joins (join_of word))) depth at self.old (step result self.new) }
    {
        let first = self.item(s, at, depth + 1)?;
        let m = self.nodes.count;
        let second = self.item(s, first, depth + 1)?;
        closed(s, second, self.nodes.joined(word, m))
    }
}
