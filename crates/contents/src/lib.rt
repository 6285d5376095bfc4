// The contents of a problem book: whether they are as stated, and the stretch of the caller's bytes that is an entry's body.
#![tactic(auto)]

ghost use Rattle.std.specs.Prelude.{◌≡◌, ◌+◌, ◌<◌};
ghost use Rattle.logic.specs.Checks.{Answers};
ghost use Rattle.logic.specs.CheckLaws.{Yes};
ghost use Rattle.logic.specs.Reflect.{Is};
ghost use Rattle.leaves.specs.Refusals.{outcome};
ghost use Rattle.logic.specs.Book.{offset, size, stretch, contents_checks, Given, Body, Placed};

use entries::{entries, word_at};
use leaves::Refusal;

// Where a body stands in the book.
#[repr(C)]
#[derive(Clone, Copy)]
pub struct Stretch {
    pub start: u64,
    pub length: u64,
}

// Whether the contents are as stated, or the refusal of the first part that is not.
pub fn check(book: &[u8]) -> Result<(), Refusal>
    ensures { Answers (contents_checks book.now) Yes (outcome result) }
{
    if book.len() < 11 {
        return Err(Refusal::BookLength);
    }
    if 206 < book.len() {
        return Err(Refusal::BookLength);
    }
    if book[0] != 2 {
        return Err(Refusal::Contents);
    }
    entries(book)
}

// Entry 0's or entry 1's stretch, of contents that are as stated.
fn row_of(book: &[u8], entry: u64) -> Stretch
    requires { Given book.now entry }
    ensures { (result.start ≡ offset book.now entry) × (result.length ≡ size book.now entry) }
{
    let row = 1 + 5 * (entry as usize);
    Stretch {
        start: word_at(book, row + 1) as u64,
        length: word_at(book, row + 3) as u64,
    }
}

// Whether there is such a body: the contents are as stated, and the entry is 0 or 1.
fn is_given(book: &[u8], entry: u64) -> bool
    ensures { Is result (Given book.now entry) }
{
    entry <= 1 && check(book).is_ok()
}

// The stretch of an entry's body; start 0 and length 0 where there is none.
pub fn placed(book: &[u8], entry: u64) -> Stretch
    ensures { Placed book.now entry result.start result.length }
{
    if is_given(book, entry) {
        row_of(book, entry)
    } else {
        Stretch {
            start: 0,
            length: 0,
        }
    }
}

fn end_of(at: Stretch) -> usize
    requires { at.start + at.length < 65536 }
    ensures { result ≡ at.start + at.length }
{
    at.start as usize + at.length as usize
}

// Entry 0's or entry 1's body, of contents that are as stated.
pub fn part(book: &[u8], entry: u64) -> &[u8]
    requires { Given book.now entry }
    ensures { result.now ≡ stretch book.now entry }
{
    let at = row_of(book, entry);
    let start = at.start as usize;
    let end = end_of(at);
    &book[start..end]
}

// The body of an entry, as that stretch of the caller's bytes; an empty one where there is none.
pub fn body(book: &[u8], entry: u64) -> &[u8]
    ensures { Body book.now entry result.now }
{
    if is_given(book, entry) {
        part(book, entry)
    } else {
        &book[..0]
    }
}
