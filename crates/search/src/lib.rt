// The search of a book for the first model that fits, within a budget. Any bytes at all are searched.
#![tactic(auto)]

ghost use Rattle.std.specs.Prelude.{◌+◌, ◌≤◌};
ghost use Rattle.logic.specs.Numbers.{output_length};
ghost use Rattle.logic.specs.Checks.{Answers, check, done};
ghost use Rattle.logic.specs.CheckLaws.{Yes};
ghost use Rattle.logic.specs.Table.{tree};
ghost use Rattle.logic.specs.Book.{most, root, Known};
ghost use Rattle.logic.specs.Search.{CandidateFits, Searches};
ghost use Rattle.leaves.specs.Refusals.{outcome};
ghost use Rattle.hunt.specs.Hunt.{Hunted};
ghost use Rattle.search.specs.Ends.{said};

use book::{Problem, open};
use hunt::{Ended, hunt};
use leaves::Refusal;
use logic::{Answer, Profile};
use packing::table_of;
use strays::named;

// The hunt for the lowest candidate that fits the problem's formula.
fn hunt_in(profile: Profile, problem: &Problem, budget: u64) -> Ended
    requires { Known problem.now.v problem.now.formula.now × (problem.now.v ≤ most) × (problem.now.n ≤ most) }
    ensures { Hunted problem.now.v problem.now.n (CandidateFits profile problem.now.v problem.now.n problem.now.p (tree problem.now.formula.now (root problem.now.formula.now))) budget result }
{
    let t = table_of(problem.formula);
    let last = problem.formula.len() / 3 - 1;
    hunt(profile, &t, last, problem.v, problem.n, problem.p, budget)
}

// Whether an output of that many bytes has room for a model.
fn room(v: u64, n: u64, space: usize) -> Result<(), Refusal>
    requires { (v ≤ most) × (n ≤ most) }
    ensures { Answers (check (v + n ≤ space) output_length 0 done) Yes (outcome result) }
{
    if (space as u64) < v + n {
        return Err(Refusal::OutputLength);
    }
    Ok(())
}

// How the hunt for a model that fits the book ends; or what is refused: the book (10 to 16), a stray variable (25) or an output that is
// too short (20). A model that is found goes to the front of the output.
fn searched(profile: Profile, book: &[u8], budget: u64, out: &mut [u8]) -> Result<Ended, Refusal>
    ensures { Searches profile book.now budget out.old (said result) out.new }
{
    let problem = open(book)?;
    named(problem.formula, problem.v)?;
    room(problem.v, problem.n, out.len())?;
    let ended = hunt_in(profile, &problem, budget);
    if let Ended::Found { at, .. } = ended {
        at.write(out);
    }
    Ok(ended)
}

// Searches the book for a model that fits in the profile, with at most that many candidates tried. A model that is found goes to
// the front of the output.
pub fn search(profile: Profile, book: &[u8], budget: u64, out: &mut [u8]) -> Answer
    ensures { Searches profile book.now budget out.old result out.new }
{
    match searched(profile, book, budget, out) {
        Ok(ended) => ended.into(),
        Err(refusal) => refusal.into(),
    }
}
