// The reader of problem books: whether a book is as it should be, and the problem that it holds. Any bytes at all are read.
#![tactic(auto)]

ghost use Rattle.std.specs.Prelude.{IfOk};
ghost use Rattle.logic.specs.Checks.{Answers};
ghost use Rattle.logic.specs.CheckLaws.{Yes};
ghost use Rattle.logic.specs.Book.{body_checks, Reads, Bodies};
ghost use Rattle.leaves.specs.Refusals.{outcome};

use contents::part;
use leaves::{Refusal, done};
use logic::{Answer, MOST};
use nodes::nodes;
use tree::one_parent;

// Whether the bounds and the formula have the right lengths, and the bounds are in range.
fn bodies(b: &[u8], f: &[u8]) -> Result<(), Refusal>
    ensures { Answers (body_checks b.now f.now) Yes (outcome result) }
{
    if b.len() != 3 {
        return Err(Refusal::Bounds);
    }
    for bound in b {
        if MOST < usize::from(*bound) {
            return Err(Refusal::Bounds);
        }
    }
    if f.len() == 0 {
        return Err(Refusal::FormulaLength);
    }
    if f.len() % 3 != 0 {
        return Err(Refusal::FormulaLength);
    }
    Ok(())
}

// What an accepted book holds: its formula, as a stretch of the book's bytes, and its bounds.
#[derive(Clone, Copy)]
pub struct Problem<'a> {
    pub formula: &'a [u8],
    pub v: u64,
    pub n: u64,
    pub p: u64,
}

// The problem that the book holds, or the refusal of the first part that fails: the first step of every call that works on a book.
pub fn open(book: &[u8]) -> Result<Problem, Refusal>
    ensures read { Reads book.now (outcome result) }
    ensures bodies { IfOk result (λ q. Bodies book.now q.formula.now q.v q.n q.p) }
{
    contents::check(book)?;
    let b = part(book, 0);
    let formula = part(book, 1);
    bodies(b, formula)?;
    let v = b[0];
    nodes(formula, v)?;
    one_parent(formula, v)?;
    Ok(Problem {
        formula,
        v: u64::from(v),
        n: u64::from(b[1]),
        p: u64::from(b[2]),
    })
}

// Whether the book is as it should be: number 0, or the refusal of the first part that fails.
pub fn read(book: &[u8]) -> Answer
    ensures { Reads book.now result }
{
    done(open(book).map(|_| ()))
}
