// The smallest things of a text: blanks, edges, closing brackets and words.
#![tactic(auto)]

ghost use Rattle.std.specs.Prelude.{◌≡◌, true, ◌+◌, ◌≤◌, length};
ghost use Rattle.logic.specs.Reflect.{Is};
ghost use Rattle.leaves.specs.declared.Refusal.TheVariants.{BadText as bad_text};
ghost use Rattle.grammar.specs.Grammar.{blank, Edge};
ghost use Rattle.grammar.specs.Phrase.{spelling};
ghost use Rattle.words.specs.Words.{word_of, Begins, OverBlanks, Skipped, SpelledIs, ShutIs, WordIs, FreeItem, EmpIs};

use leaves::Refusal;

// What was asked for does not stand there: 26's place.
#[derive(Clone, Copy, Debug, PartialEq, Eq)]
pub struct BadText {
    pub at: usize,
}

impl From<BadText> for Refusal {
    ghost from_gives = { λ bad refusal. refusal ≡ bad_text bad.at };

    fn from(bad: BadText) -> Refusal {
        Refusal::BadText(bad.at)
    }
}

// The words over two formulas.
#[derive(Clone, Copy, Debug, PartialEq, Eq)]
pub enum Join {
    And,
    Or,
    Sep,
    Wand,
}

// The words over two terms.
#[derive(Clone, Copy, Debug, PartialEq, Eq)]
pub enum Atom {
    Equal,
    Distinct,
    Pto,
    Ls,
}

// The nine words that begin a list; `not` is over one formula.
#[derive(Clone, Copy, Debug, PartialEq, Eq)]
pub enum ListWord {
    Join(Join),
    Not,
    Atom(Atom),
}

// How many bytes are looked at together where blanks are skipped.
const STRETCH: usize = 128;

pub fn is_blank(b: u8) -> bool
    ensures { result ≡ blank b }
{
    b == b' ' || b == b'\n'
}

fn ink(b: u8) -> u8
    ensures { (result ≤ 1) × (result ≡ 0 → blank b ≡ true) }
{
    u8::from(!is_blank(b))
}

// How many bytes of the stretch are no blanks: without a way out, many are looked at in one step.
fn inks(s: &[u8], at: usize) -> u8
    requires { at + 128 ≤ length s.now }
    ensures { result ≡ 0 → OverBlanks s.now at (at + 128) }
{
    let mut n: u8 = 0;
    for k in 0..STRETCH {
        n += ink(s[at + k]);
    }
    n
}

// Whether the stretch is all blanks. Where few blanks stand, its last byte mostly tells.
fn all_blank(s: &[u8], at: usize) -> bool
    requires { at + 128 ≤ length s.now }
    ensures { result ≡ true → OverBlanks s.now at (at + 128) }
{
    is_blank(s[at + (STRETCH - 1)]) && inks(s, at) == 0
}

// Past the stretches that are all blanks. A step is a stretch, and the first that is not all blanks ends it, so this is no loop over a range.
fn far(s: &[u8], at: usize) -> usize
    requires { at ≤ length s.now }
    ensures { (at ≤ result) × (result ≤ length s.now) × OverBlanks s.now at result }
{
    let mut e = at;
    while STRETCH <= s.len() - e && all_blank(s, e) {
        e += STRETCH;
    }
    e
}

// Past the blanks.
pub fn skip(s: &[u8], at: usize) -> usize
    requires { at ≤ length s.now }
    ensures { Skipped s.now at result }
{
    for e in far(s, at)..s.len() {
        if !is_blank(s[e]) {
            return e;
        }
    }
    s.len()
}

// Whether what ends here has the text's end, a blank or a bracket behind it.
pub fn edge(s: &[u8], at: usize) -> bool
    requires { at ≤ length s.now }
    ensures { Is result (Edge s.now at) }
{
    if s.len() <= at {
        return true;
    }
    match s[at] {
        b'(' | b')' => true,
        b => is_blank(b),
    }
}

// A list's closing bracket.
pub fn shut(s: &[u8], at: usize) -> Result<usize, BadText>
    requires { at ≤ length s.now }
    ensures { ShutIs s.now at result }
{
    let e = skip(s, at);
    if s.len() <= e || s[e] != b')' {
        return Err(BadText { at: e });
    }
    Ok(e + 1)
}

fn letters(word: ListWord) -> &'static [u8]
    ensures { result.now ≡ spelling (word_of word) }
{
    match word {
        ListWord::Join(Join::And) => b"and",
        ListWord::Join(Join::Or) => b"or",
        ListWord::Join(Join::Sep) => b"sep",
        ListWord::Join(Join::Wand) => b"wand",
        ListWord::Not => b"not",
        ListWord::Atom(Atom::Equal) => b"=",
        ListWord::Atom(Atom::Distinct) => b"distinct",
        ListWord::Atom(Atom::Pto) => b"pto",
        ListWord::Atom(Atom::Ls) => b"ls",
    }
}

// The letters from `at` on.
pub fn spelled(s: &[u8], at: usize, letters: &[u8]) -> Result<usize, BadText>
    requires { at ≤ length s.now }
    ensures { SpelledIs s.now letters.now at result }
{
    for (i, c) in letters.iter().enumerate() {
        let e = at + i;
        if s.len() <= e || s[e] != *c {
            return Err(BadText { at: e });
        }
    }
    Ok(at + letters.len())
}

// The list's word that begins with b: their first letters differ.
fn begun(b: u8) -> Option<ListWord>
    ensures { Begins b result }
{
    match b {
        b'a' => Some(ListWord::Join(Join::And)),
        b'o' => Some(ListWord::Join(Join::Or)),
        b's' => Some(ListWord::Join(Join::Sep)),
        b'w' => Some(ListWord::Join(Join::Wand)),
        b'n' => Some(ListWord::Not),
        b'=' => Some(ListWord::Atom(Atom::Equal)),
        b'd' => Some(ListWord::Atom(Atom::Distinct)),
        b'p' => Some(ListWord::Atom(Atom::Pto)),
        b'l' => Some(ListWord::Atom(Atom::Ls)),
        _ => None,
    }
}

// A list's word, behind its opening bracket, and where it ends.
pub fn word(s: &[u8], at: usize) -> Result<(usize, ListWord), BadText>
    requires { at ≤ length s.now }
    ensures { WordIs s.now at result }
{
    let from = skip(s, at);
    if s.len() <= from {
        return Err(BadText { at: from });
    }
    let Some(word) = begun(s[from]) else {
        return Err(BadText { at: from });
    };
    let end = spelled(s, from + 1, &letters(word)[1..])?;
    if !edge(s, end) {
        return Err(BadText { at: end });
    }
    Ok((end, word))
}

// `sep.emp`, where an item is to stand and neither a blank nor a list does.
pub fn emp(s: &[u8], at: usize) -> Result<usize, BadText>
    requires { (at ≤ length s.now) × FreeItem s.now at }
    ensures { EmpIs s.now at result }
{
    spelled(s, at, b"sep.emp")
}
