// Terms: a name or `sep.nil`, and where it ends.
#![tactic(auto)]

ghost use Rattle.std.specs.Prelude.{◌≡◌, false, ℕ, ◌<◌, ◌≤◌, length, get_or};
ghost use Rattle.grammar.specs.Phrase.{lower, letter};
ghost use Rattle.grammar.specs.Grammar.{blank, Byte};
ghost use Rattle.grammar.specs.Machine.{reserved, viable as viable_of};
ghost use Rattle.terms.specs.Letters.{letters_of};
ghost use Rattle.terms.specs.Terms.{EndsIs, LettersIs, NilIs, EndedIs, TermIs};

use words::{BadText, is_blank, spelled};

// The first number that holds eight letters.
const EIGHT_LETTERS: u64 = 72057594037927936;

// `sep`, as a number.
const SEP: u64 = 7562608;

fn is_lower(b: u8) -> bool
    ensures { result ≡ lower b }
{
    b.is_ascii_lowercase()
}

fn is_letter(b: u8) -> bool
    ensures { result ≡ letter b }
{
    is_lower(b) || b.is_ascii_digit()
}

// Whether the number holds one of the nine words.
fn is_word(w: u64) -> bool
    ensures { result ≡ reserved (letters_of w) }
{
    matches!(
        w,
        6385252
            | 28530
            | 7562608
            | 2002873956
            | 7237492
            | 61
            | 7235441220169655156
            | 7369839
            | 27763
    )
}

// Whether some name begins with these letters.
fn viable(w: u64) -> bool
    ensures { result ≡ viable_of (letters_of w) }
{
    w < EIGHT_LETTERS || !is_word(w)
}

// The letters from `at` on, behind those of w, and where they end: in base 256.
fn letters(s: &[u8], at: usize, w: u64) -> Result<(usize, u64), BadText>
    requires { (at ≤ length s.now) × (0 < w) }
    ensures { LettersIs s.now w at result }
{
    let mut x = w;
    for e in at..s.len() {
        let b = s[e];
        if !is_letter(b) {
            return Ok((e, x));
        }
        if EIGHT_LETTERS <= x {
            return Err(BadText { at: e });
        }
        x = x * 256 + u64::from(b);
        if !viable(x) {
            return Err(BadText { at: e });
        }
    }
    Err(BadText { at: s.len() })
}

// Whether a term may end here: before a blank or, where it is its list's last, a closing bracket.
fn ends(s: &[u8], at: usize, last: bool) -> bool
    ensures { EndsIs s.now last at result }
{
    if s.len() <= at {
        return false;
    }
    match s[at] {
        b')' => last,
        b => is_blank(b),
    }
}

// The end of sep.nil, behind its dot.
fn nil(s: &[u8], at: usize, last: bool) -> Result<usize, BadText>
    requires { at ≤ length s.now }
    ensures { NilIs s.now last at result }
{
    let end = spelled(s, at, b"nil")?;
    if !ends(s, end, last) {
        return Err(BadText { at: end });
    }
    Ok(end)
}

// A term whose letters w end before `at`.
fn ended(s: &[u8], at: usize, w: u64, last: bool) -> Result<(usize, Option<u64>), BadText>
    requires { (at < length s.now) × (0 < w) × (letter (get_or s.now at 0) ≡ false) }
    ensures { EndedIs s.now last w at result }
{
    if s[at] == b'.' {
        if w != SEP {
            return Err(BadText { at });
        }
        let end = nil(s, at + 1, last)?;
        return Ok((end, None));
    }
    if is_word(w) || !ends(s, at, last) {
        return Err(BadText { at });
    }
    Ok((at, Some(w)))
}

// Where a term ends, and a name's letters in base 256, or None for sep.nil. No blank stands where it begins; `last`: it is its list's last.
pub fn term(s: &[u8], at: usize, last: bool) -> Result<(usize, Option<u64>), BadText>
    requires { (at ≤ length s.now) × ((b : ℕ) → Byte s.now b at → blank b ≡ false) }
    ensures { TermIs s.now last at result }
{
    if s.len() <= at || !is_lower(s[at]) {
        return Err(BadText { at });
    }
    let (end, w) = letters(s, at + 1, u64::from(s[at]))?;
    ended(s, end, w, last)
}
