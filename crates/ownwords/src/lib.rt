// An operator's words in a text: what stands before its first operand, between its two and behind its last; variables, which
// are an atom's operands; and how many bytes of a text are a node's own.
#![tactic(auto)]

ghost use Rattle.std.specs.Prelude.{◌≡◌, ◌≤◌, length};
ghost use Rattle.logic.specs.Book.{most};
ghost use Rattle.put.specs.Pens.{Space, Writes};
ghost use Rattle.ownwords.specs.OwnWords.{before, between, behind, around, term, word_bytes, own_byte_count};

use put::Pen;

pub fn before(op: u8) -> &'static [u8]
    requires { (1 ≤ op) × (op ≤ 10) }
    ensures { result.now ≡ before op }
{
    match op {
        1 => b"(and (= ",
        2 => b"(and (distinct ",
        3 => b"(pto ",
        4 => b"(ls ",
        5 => b"(and ",
        6 => b"(or ",
        7 => b"(and ",
        8 => b"(not ",
        9 => b"(sep ",
        _ => b"(not (wand ",
    }
}

// Operator 8 has nothing between: it has one operand.
pub fn between(op: u8) -> &'static [u8]
    requires { (1 ≤ op) × (op ≤ 10) }
    ensures { result.now ≡ between op }
{
    match op {
        7 => b" (not ",
        8 => b"",
        10 => b" (not ",
        _ => b" ",
    }
}

pub fn behind(op: u8) -> &'static [u8]
    requires { (1 ≤ op) × (op ≤ 10) }
    ensures { result.now ≡ behind op }
{
    match op {
        1 => b") sep.emp)",
        2 => b") sep.emp)",
        7 => b"))",
        10 => b")))",
        _ => b")",
    }
}

// Each word is copied by a call of its own, so that the compiler knows how long it is: with one call for all of an operator's words a
// text takes half as long again, or more.
pub fn put_before(pen: &mut Pen, op: u8)
    requires { (1 ≤ op) × (op ≤ 10) × Space pen.old (before op) }
    ensures { Writes pen.old (before op) pen.new }
{
    match op {
        1 => pen.put_word(before(1)),
        2 => pen.put_word(before(2)),
        3 => pen.put_word(before(3)),
        4 => pen.put_word(before(4)),
        5 => pen.put_word(before(5)),
        6 => pen.put_word(before(6)),
        7 => pen.put_word(before(7)),
        8 => pen.put_word(before(8)),
        9 => pen.put_word(before(9)),
        _ => pen.put_word(before(10)),
    }
}

#[inline(always)]
pub fn put_between(pen: &mut Pen, op: u8)
    requires { (1 ≤ op) × (op ≤ 10) × Space pen.old (between op) }
    ensures { Writes pen.old (between op) pen.new }
{
    match op {
        7 => pen.put_word(between(7)),
        8 => pen.put_word(between(8)),
        10 => pen.put_word(between(10)),
        _ => pen.put_word(between(1)),
    }
}

#[inline(always)]
pub fn put_behind(pen: &mut Pen, op: u8)
    requires { (1 ≤ op) × (op ≤ 10) × Space pen.old (behind op) }
    ensures { Writes pen.old (behind op) pen.new }
{
    match op {
        1 => pen.put_word(behind(1)),
        2 => pen.put_word(behind(2)),
        7 => pen.put_word(behind(7)),
        10 => pen.put_word(behind(10)),
        _ => pen.put_word(behind(3)),
    }
}

// A variable by its name, or nil.
fn put_term(pen: &mut Pen, x: u8)
    requires { (x ≤ most) × Space pen.old (term x) }
    ensures { Writes pen.old (term x) pen.new }
{
    if x == 0 {
        pen.put_word(b"sep.nil");
        return;
    }
    pen.put(b'v');
    pen.put(b'0' + x);
}

// An atom over the variables x and y.
pub fn put_atom(pen: &mut Pen, op: u8, x: u8, y: u8)
    requires { (1 ≤ op) × (op ≤ 4) × (x ≤ most) × (y ≤ most) × Space pen.old (around op (term x) (term y)) }
    ensures { Writes pen.old (around op (term x) (term y)) pen.new }
{
    put_before(pen, op);
    put_term(pen, x);
    put_between(pen, op);
    put_term(pen, y);
    put_behind(pen, op);
}

// How many bytes a variable has.
fn term_bytes(x: u8) -> usize
    ensures { (result ≡ length (term x)) × (result ≤ 7) }
{
    if x == 0 { 7 } else { 2 }
}

// How many bytes an operator has before, between and behind its operands.
#[inline(always)]
fn word_bytes(op: u8) -> usize
    requires { (1 ≤ op) × (op ≤ 10) }
    ensures { (result ≡ word_bytes op) × (result ≤ 26) }
{
    before(op).len() + between(op).len() + behind(op).len()
}

// The same, each operator by itself: so that the compiler knows the sum, and a book's text is not measured word by word.
fn known_bytes(op: u8) -> usize
    requires { (1 ≤ op) × (op ≤ 10) }
    ensures { (result ≡ word_bytes op) × (result ≤ 26) }
{
    match op {
        1 => word_bytes(1),
        2 => word_bytes(2),
        3 => word_bytes(3),
        4 => word_bytes(4),
        5 => word_bytes(5),
        6 => word_bytes(6),
        7 => word_bytes(7),
        8 => word_bytes(8),
        9 => word_bytes(9),
        _ => word_bytes(10),
    }
}

// How many bytes a node has, those of its children left out.
pub fn own_bytes(op: u8, x: u8, y: u8) -> usize
    requires { (1 ≤ op) × (op ≤ 10) }
    ensures { (result ≡ own_byte_count op x y) × (result ≤ 40) }
{
    let words = known_bytes(op);
    if op > 4 {
        return words;
    }
    words + term_bytes(x) + term_bytes(y)
}
