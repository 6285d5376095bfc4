// The smallest pieces, said once for every crate above: what is refused, and the answer that a caller gets.
#![tactic(auto)]

ghost use Rattle.std.specs.Prelude.{◌≡◌};
ghost use Rattle.logic.specs.Numbers.{answer};
ghost use Rattle.leaves.specs.Refusals.{refused, outcome, told};

use logic::Answer;

// What is refused, each with its place where it has one: the numbers from 10 on.
#[derive(Clone, Copy, Debug, PartialEq, Eq)]
pub enum Refusal {
    BookLength,
    Contents,
    Bounds,
    FormulaLength,
    Operator(usize),
    Operand(usize),
    TreeShape(usize),
    ModelLength,
    ModelValue(usize),
    NotEncodable,
    OutputLength,
    AssignmentLength,
    AssignmentValue(usize),
    EntryKind(usize),
    EntryStretch(usize),
    StrayVariable(usize),
    BadText(usize),
    ManyNodes(usize),
    ManyNames(usize),
}

// The answer of number and place, outside search.
pub fn answer_of(number: u64, place: usize) -> Answer
    ensures { result ≡ answer number place }
{
    Answer {
        number,
        place: place as u64,
        tried: 0,
    }
}

impl From<Refusal> for Answer {
    ghost from_gives = { λ refusal a. a ≡ refused refusal };

    fn from(refusal: Refusal) -> Answer {
        match refusal {
            Refusal::BookLength => answer_of(logic::BOOK_LENGTH, 0),
            Refusal::Contents => answer_of(logic::CONTENTS, 0),
            Refusal::Bounds => answer_of(logic::BOUNDS, 0),
            Refusal::FormulaLength => answer_of(logic::FORMULA_LENGTH, 0),
            Refusal::Operator(k) => answer_of(logic::OPERATOR, k),
            Refusal::Operand(k) => answer_of(logic::OPERAND, k),
            Refusal::TreeShape(k) => answer_of(logic::TREE_SHAPE, k),
            Refusal::ModelLength => answer_of(logic::MODEL_LENGTH, 0),
            Refusal::ModelValue(i) => answer_of(logic::MODEL_VALUE, i),
            Refusal::NotEncodable => answer_of(logic::NOT_ENCODABLE, 0),
            Refusal::OutputLength => answer_of(logic::OUTPUT_LENGTH, 0),
            Refusal::AssignmentLength => answer_of(logic::ASSIGNMENT_LENGTH, 0),
            Refusal::AssignmentValue(i) => answer_of(logic::ASSIGNMENT_VALUE, i),
            Refusal::EntryKind(e) => answer_of(logic::ENTRY_KIND, e),
            Refusal::EntryStretch(e) => answer_of(logic::ENTRY_STRETCH, e),
            Refusal::StrayVariable(x) => answer_of(logic::STRAY_VARIABLE, x),
            Refusal::BadText(i) => answer_of(logic::BAD_TEXT, i),
            Refusal::ManyNodes(i) => answer_of(logic::MANY_NODES, i),
            Refusal::ManyNames(i) => answer_of(logic::MANY_NAMES, i),
        }
    }
}

// The answer of a step that gives back nothing: number 0, or its refusal.
pub fn done(step: Result<(), Refusal>) -> Answer
    ensures { result ≡ outcome step }
{
    match step {
        Ok(()) => answer_of(logic::YES, 0),
        Err(refusal) => refusal.into(),
    }
}

// The answer of a judge: number 0 or 1, or its refusal.
pub fn told(verdict: Result<bool, Refusal>) -> Answer
    ensures { result ≡ told verdict }
{
    match verdict {
        Ok(true) => answer_of(logic::YES, 0),
        Ok(false) => answer_of(logic::NO, 0),
        Err(refusal) => refusal.into(),
    }
}
