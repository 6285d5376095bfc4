// The judge of assignments: whether an assignment satisfies the table of a book, without a byte of the table being written.
#![tactic(auto)]

ghost use Rattle.logic.specs.Reflect.{Is};
ghost use Rattle.leaves.specs.Refusals.{told as told_of};
ghost use Rattle.logic.specs.Table.{tree};
ghost use Rattle.logic.specs.Book.{root};
ghost use Rattle.rows.specs.Meaning.{Satisfies};
ghost use Rattle.rows.specs.Table.{table};
ghost use Rattle.rows.specs.Assigned.{assigned, Assigns};
ghost use Rattle.assign.specs.Judging.{Judging};

use arrays::unpack;
use assignment::{above, in_range};
use book::{Problem, open};
use cells::barred;
use encodable::encodable;
use leaves::{Refusal, told};
use logic::{Answer, Profile};
use packing::packed;
use rowjudge::{Judge, Next, Setting};

// Whether an assignment in range satisfies the table of the formula.
fn satisfies(profile: Profile, problem: Problem, q: &[u8], arrays: usize, sets: usize) -> bool
    requires { Judging q.now problem.formula.now problem.v problem.n arrays sets }
    ensures { Is result (Satisfies problem.entry.v (assigned problem.entry.v problem.entry.n arrays q.now) (table profile problem.entry.n problem.entry.p (tree problem.entry.formula.now (root problem.entry.formula.now)))) }
{
    let v = problem.v;
    let n = problem.n;
    let formula = problem.formula;
    let stack = packed(q, 0, v as usize, false);
    let values = unpack(q, v as usize, n as usize, arrays);
    let judge = Judge {
        formula,
        bytes: q,
        arrays: &values,
        setting: Setting {
            profile,
            v,
            n,
            arrays,
            sets,
            base: v as usize + arrays * (n as usize),
            stack,
            barred: barred(profile, v, n, stack),
        },
    };
    let first = Next { array: 1, set: 1 };
    let t = judge.node(formula.len() / 3 - 1, 0, 0, first);
    t.holds && judge.long_holds(0, 0, problem.p)
}

// Whether the assignment satisfies the table of the book in the profile, or the first refusal of the book (10 to 16), of its
// formula (19) or of the assignment (21, 22).
fn verdict(profile: Profile, book: &[u8], assignment: &[u8]) -> Result<bool, Refusal>
    ensures { Assigns profile book.now assignment.now (told_of result) }
{
    let problem = open(book)?;
    let f = problem.formula;
    if !encodable(f, f.len() / 3 - 1) {
        return Err(Refusal::NotEncodable);
    }
    let arrays = 1 + above(f, 9);
    let sets = 1 + 2 * above(f, 8);
    in_range(
        assignment,
        problem.v as usize,
        problem.n as usize,
        arrays,
        sets,
    )?;
    Ok(satisfies(profile, problem, assignment, arrays, sets))
}

// The verdict as an answer: 0 or 1, or the refusal.
pub fn assign(profile: Profile, book: &[u8], assignment: &[u8]) -> Answer
    ensures { Assigns profile book.now assignment.now result }
{
    told(verdict(profile, book, assignment))
}
