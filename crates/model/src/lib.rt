// The model judge: whether a model's bytes fit a book. Any two byte strings are judged.
#![tactic(auto)]

ghost use Rattle.logic.specs.Reflect.{Is};
ghost use Rattle.logic.specs.Table.{tree};
ghost use Rattle.logic.specs.Book.{root};
ghost use Rattle.logic.specs.Model.{Fits, Judges};
ghost use Rattle.cells.specs.Cells.{cells};
ghost use Rattle.leaves.specs.Refusals.{told as told_of};
ghost use Rattle.model.specs.Judged.{Judged};

use book::{Problem, open};
use cells::barred;
use judge::Setting;
use leaves::{Refusal, told};
use logic::{Answer, Profile};
use packing::table_of;
use ranges::{Packed, pack};

// Whether a model that is in range fits the formula.
fn fits(profile: Profile, problem: &Problem, model: Packed) -> bool
    requires { Judged problem.now.v problem.now.n problem.now.formula.now model.stack model.heap }
    ensures { Is result (Fits profile problem.now.v problem.now.n problem.now.p (tree problem.now.formula.now (root problem.now.formula.now)) (cells model.stack) (cells model.heap)) }
{
    let table = table_of(problem.formula);
    let last = problem.formula.len() / 3 - 1;
    let setting = Setting {
        vars: problem.v,
        locs: problem.n,
        path: problem.p,
        stack: model.stack,
        barred: barred(profile, problem.v, problem.n, model.stack),
        profile,
    };
    judge::fits(&table, last, &setting, model.heap)
}

// Whether the model fits the book's formula in the profile, or the first refusal of the book (10 to 16) or the model (17, 18).
fn judged(profile: Profile, book: &[u8], model: &[u8]) -> Result<bool, Refusal>
    ensures { Judges profile book.now model.now (told_of result) }
{
    let problem = open(book)?;
    let packed = pack(problem.v as usize, problem.n as usize, model)?;
    Ok(fits(profile, &problem, packed))
}

// The same as a number: 0 or 1, or the refusal's, with its place.
pub fn judge(profile: Profile, book: &[u8], model: &[u8]) -> Answer
    ensures { Judges profile book.now model.now result }
{
    told(judged(profile, book, model))
}
