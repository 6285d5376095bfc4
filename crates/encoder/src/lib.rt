// The encoder: the table of a book's formula, as a book of its own, written to the front of the output.
#![tactic(auto)]

ghost use Rattle.std.specs.Prelude.{◌≡◌, ◌+◌, ◌≤◌, ◌<◌, length};
ghost use Rattle.leaves.specs.Refusals.{outcome};
ghost use Rattle.logic.specs.Table.{tree};
ghost use Rattle.logic.specs.Book.{root, KnownTable};
ghost use Rattle.rows.specs.Row.{bytes_of};
ghost use Rattle.rows.specs.Table.{apart_row_count, rows_in, table};
ghost use Rattle.rows.specs.Bounds.{own_row_count};
ghost use Rattle.rows.specs.Output.{out_book, Encodes};
ghost use Rattle.rowbytes.specs.Written.{put};
ghost use Rattle.encoder.specs.Writable.{RoomTable, Writable};

use book::open;
use encodable::encodable;
use head::{HEAD, put_head};
use leaves::{Refusal, done};
use logic::{Answer, Profile};
use ownrows::put_long;
use rowbytes::Writer;
use rows::Next;
use treerows::Source;

// How many rows APART and its AND are, where the profile asks for them.
fn apart_rows(profile: Profile) -> u16
    ensures { (result ≡ apart_row_count profile) × (result ≤ 2) }
{
    match profile {
        Profile::Strong => 2,
        Profile::Ordinary => 0,
    }
}

// How many own rows a node has.
fn own_rows(profile: Profile, op: u8, n: u8) -> u16
    requires { (1 ≤ op) × (op ≤ 10) × (n < 255) }
    ensures { (result ≡ own_row_count profile n op) × (result < 512) }
{
    match op {
        1..=3 => 3,
        4 => 2 * u16::from(n) + 1,
        5..=6 | 8 => 1,
        7 => 2,
        9 => 3 + apart_rows(profile),
        _ => 5 + apart_rows(profile),
    }
}

// How many rows the table has: those of the formula, LONG and its AND.
fn row_count(source: &Source) -> u16
    requires { KnownTable source.now.formula.now }
    ensures { result ≡ rows_in source.now.profile source.now.n (tree source.now.formula.now (root source.now.formula.now)) + 2 }
{
    let f = source.formula;
    let mut r: u16 = 0;
    for k in 0..f.len() / 3 {
        r += own_rows(source.profile, f[3 * k], source.n);
    }
    r + 2
}

// Writes the table: the rows of the formula, LONG and its AND.
fn put_table(out: &mut [u8], source: &Source, p: u8)
    requires { KnownTable source.now.formula.now × RoomTable source.now.profile source.now.n (tree source.now.formula.now (root source.now.formula.now)) out.old }
    ensures { out.new ≡ put 0 (bytes_of (table source.now.profile source.now.n p (tree source.now.formula.now (root source.now.formula.now)))) out.old }
{
    let next = Next {
        row: 0,
        array: 1,
        set: 1,
    };
    let mut w = Writer { out, next };
    source.node(&mut w, source.formula.len() / 3 - 1, 0, 0);
    put_long(&mut w, p);
}

// Writes the whole book, of that many rows, to the front of the output.
fn write(out: &mut [u8], source: &Source, v: u8, p: u8, rows: u16)
    requires { Writable source.now.profile source.now.formula.now source.now.n rows out.old }
    ensures { out.new ≡ put 0 (out_book v source.now.n p (table source.now.profile source.now.n p (tree source.now.formula.now (root source.now.formula.now)))) out.old }
{
    put_head(out, 3, v, source.n, p, 10 * rows);
    put_table(&mut out[HEAD..], source, p);
}

// Writes the encoding of a book in the profile to the front of the output, or is refused as the first part that fails is, and then
// nothing changes.
fn encoded(profile: Profile, book: &[u8], out: &mut [u8]) -> Result<(), Refusal>
    ensures { Encodes profile book.now out.old (outcome result) out.new }
{
    let problem = open(book)?;
    let formula = problem.formula;
    if !encodable(formula, formula.len() / 3 - 1) {
        return Err(Refusal::NotEncodable);
    }
    let n = problem.n as u8;
    let source = Source {
        profile,
        formula,
        n,
    };
    let rows = row_count(&source);
    if out.len() < HEAD + 10 * usize::from(rows) {
        return Err(Refusal::OutputLength);
    }
    write(out, &source, problem.v as u8, problem.p as u8, rows);
    Ok(())
}

// The encoding of a book in the profile, at the front of the output: number 0, or the refusal of the first part that fails, and then nothing
// changes.
pub fn encode(profile: Profile, book: &[u8], out: &mut [u8]) -> Answer
    ensures { Encodes profile book.now out.old result out.new }
{
    done(encoded(profile, book, out))
}
