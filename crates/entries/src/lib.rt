// The two entries of a book's contents: their numbers, and whether each is as it should be.
#![tactic(auto)]

ghost use Rattle.std.specs.Prelude.{◌≡◌, ◌+◌, ◌<◌, ◌≤◌, length};
ghost use Rattle.logic.specs.Checks.{Answers, ◌then◌};
ghost use Rattle.logic.specs.CheckLaws.{Yes};
ghost use Rattle.logic.specs.Reflect.{Is};
ghost use Rattle.leaves.specs.Refusals.{outcome};
ghost use Rattle.logic.specs.Book.{word, KindOk, StretchOk, entry_checks};

use leaves::Refusal;

// Two bytes, low first.
pub fn word_at(s: &[u8], i: usize) -> usize
    requires { i + 1 < length s.now }
    ensures { (result ≡ word s.now i) × (result < 65536) }
{
    usize::from(s[i]) + 256 * usize::from(s[i + 1])
}

// Whether entry e, 0 or 1, has its kind.
fn is_kind(book: &[u8], e: usize) -> bool
    requires { (11 ≤ length book.now) × (e ≤ 1) }
    ensures { Is result (KindOk book.now e) }
{
    usize::from(book[1 + 5 * e]) == e + 1
}

// Whether entry 0's body starts at byte 11 and does not run past the book.
fn is_first_placed(book: &[u8]) -> bool
    requires { 11 ≤ length book.now }
    ensures { Is result (StretchOk book.now 0) }
{
    let start = word_at(book, 2);
    if start != 11 {
        return false;
    }
    start + word_at(book, 4) <= book.len()
}

// Whether entry 1's body starts where the first ends, and ends with the book.
fn is_second_placed(book: &[u8]) -> bool
    requires { 11 ≤ length book.now }
    ensures { Is result (StretchOk book.now 1) }
{
    let start = word_at(book, 7);
    if start != word_at(book, 2) + word_at(book, 4) {
        return false;
    }
    start + word_at(book, 9) == book.len()
}

// Whether the two entries are as they should be, the first before the second, and the kind before offset and length at each.
pub fn entries(book: &[u8]) -> Result<(), Refusal>
    requires { 11 ≤ length book.now }
    ensures { Answers (entry_checks book.now 0 then entry_checks book.now 1) Yes (outcome result) }
{
    let first_kind = is_kind(book, 0);
    let first_placed = is_first_placed(book);
    let second_kind = is_kind(book, 1);
    let second_placed = is_second_placed(book);
    if !first_kind {
        return Err(Refusal::EntryKind(0));
    }
    if !first_placed {
        return Err(Refusal::EntryStretch(0));
    }
    if !second_kind {
        return Err(Refusal::EntryKind(1));
    }
    if !second_placed {
        return Err(Refusal::EntryStretch(1));
    }
    Ok(())
}
