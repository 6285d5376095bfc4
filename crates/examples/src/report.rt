// The examples' lines: each is run through the public calls and beside the second judge, and printed with what came of it.
//
// A line's fields are: its place in the document; the bounds v n p; the formula; what the document states of it: `found` or
// `none` of all models within the bounds, `fits` or `not` of the model that follows. A fifth field has an assignment that
// satisfies the formula's encoding and yields that model.
use crate::compare::{BUDGET, Swept};
use logic::{MODEL, Profile};
use second::Bounds;
use std::{fmt, io};

// Lines printed; those of them that are as stated, with both judges agreeing where both can judge; and those that the second
// judge cannot judge.
#[derive(Clone, Copy, Default)]
pub struct Tally {
    lines: u64,
    right: u64,
    beyond: u64,
}

impl fmt::Display for Tally {
    fn fmt<W: fmt::Write>(&self, f: &mut fmt::Formatter<W>) -> fmt::Result {
        let Tally {
            lines,
            right,
            beyond,
        } = self;
        write!(
            f,
            "{lines} examples, {right} as stated with both judges agreeing, {beyond} of them beyond the second judge"
        )
    }
}

// What a document states, of all models within the bounds, or of the model that is given.
#[derive(Clone, Copy, PartialEq, Eq)]
enum Stated {
    Found,
    None,
    Fits,
    Not,
}

impl Stated {
    fn read(statement: &str) -> Stated {
        match statement.split_whitespace().next() {
            Some("found") => Stated::Found,
            Some("fits") => Stated::Fits,
            Some("not") => Stated::Not,
            _ => Stated::None,
        }
    }

    // The number of the answer that says so.
    fn number(self) -> u64 {
        match self {
            Stated::Found | Stated::Fits => logic::YES,
            Stated::None | Stated::Not => logic::NO,
        }
    }
}

// How a line says whether the answer is as stated.
fn verdict(right: bool) -> &'static str {
    if right { "as stated" } else { "NOT AS STATED" }
}

impl Tally {
    fn count(&mut self, right: bool, beyond: bool) {
        self.lines = self.lines.saturating_add(1);
        self.right = self.right.saturating_add(u64::from(right));
        self.beyond = self.beyond.saturating_add(u64::from(beyond));
    }

    // Compares the bytes with those that the document states.
    pub fn compare(
        &mut self,
        rt: &impl Print,
        place: &str,
        got: &[u8],
        stated: &[u8],
    ) -> io::Result<()> {
        let right = got == stated;
        println!(rt; "{place} | {} bytes | {}", got.len(), verdict(right))?;
        self.count(right, false);
        Ok(())
    }

    // Runs one example.
    pub fn run(&mut self, rt: &impl Print, line: &str) -> io::Result<()> {
        print!(rt; "{line}")?;
        let mut fields = line.split('|').skip(1);
        let bytes = notation::bytes(fields.next().unwrap_or("").as_bytes());
        let page = notation::book(bytes.as_slice(), fields.next().unwrap_or("").as_bytes());
        let statement = fields.next().unwrap_or("");
        let assignment = fields.next();
        let &[variables, locations, path] = bytes.as_slice() else {
            println!(rt; ", no bounds | {}", verdict(false))?;
            self.count(false, false);
            return Ok(());
        };
        let bounds = Bounds {
            variables,
            locations,
            path,
        };
        let book = page.as_slice();
        let stated = Stated::read(statement);
        let model = notation::bytes(statement.as_bytes());
        let swept = Swept::over(book, bounds, model.as_slice());
        let right = match (stated, assignment) {
            (Stated::Found | Stated::None, _) => is_searched(rt, book, stated)?,
            (Stated::Fits | Stated::Not, None) => is_judged(book, model.as_slice(), stated, swept),
            (Stated::Fits | Stated::Not, Some(digits)) => is_assigned(book, digits, swept),
        };
        self.end(rt, right, book, swept)
    }

    // Ends the line: whether the answer is as stated, and whether both judges agree on every candidate and on the search.
    fn end(
        &mut self,
        rt: &impl Print,
        right: bool,
        book: &[u8],
        swept: Option<Swept>,
    ) -> io::Result<()> {
        let Some(swept) = swept else {
            println!(rt; " | {} | beyond the second judge", verdict(right))?;
            self.count(right, true);
            return Ok(());
        };
        let agree = swept.agrees(book);
        let judges = if agree {
            "both judges agree on all"
        } else {
            "THE JUDGES DIFFER,"
        };
        let refused = if swept.stray.is_some() {
            ", the search refuses a stray variable"
        } else {
            ""
        };
        println!(rt; " | {} | {judges} {}{refused}", verdict(right), swept.all)?;
        self.count(right && agree, false);
        Ok(())
    }
}

// Whether the stated number is the search's; prints how many candidates it tried.
fn is_searched(rt: &impl Print, book: &[u8], stated: Stated) -> io::Result<bool> {
    let mut out = [0u8; MODEL];
    let answer = search::search(Profile::Strong, book, BUDGET, &mut out);
    print!(rt; ", tried {}", answer.tried)?;
    Ok(answer.number == stated.number())
}

// Whether the stated number is the judge's, and the second judge says the same of the model.
fn is_judged(book: &[u8], model: &[u8], stated: Stated, swept: Option<Swept>) -> bool {
    let answer = model::judge(Profile::Strong, book, model);
    answer.number == stated.number()
        && swept.is_none_or(|s| s.fits == (answer.number == logic::YES))
}

// Whether the assignment satisfies the book's encoding, and the model that is stated for it fits.
fn is_assigned(book: &[u8], digits: &str, swept: Option<Swept>) -> bool {
    let values = notation::bytes(digits.as_bytes());
    let answer = assign::assign(Profile::Strong, book, values.as_slice());
    answer.number == logic::YES && swept.is_some_and(|s| s.fits)
}
