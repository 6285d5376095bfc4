// The export: the text of a book's formula, written to the front of the output.
#![tactic(auto)]

ghost use Rattle.std.specs.Prelude.{◌≡◌, ◌<◌, length};
ghost use Rattle.logic.specs.Table.{tree};
ghost use Rattle.logic.specs.Book.{nodes, root, KnownTable};
ghost use Rattle.leaves.specs.Refusals.{outcome};
ghost use Rattle.put.specs.Pens.{Space, Writes};
ghost use Rattle.writing.specs.Writing.{Exports};
ghost use Rattle.ownwords.specs.OwnWords.{text};
ghost use Rattle.writer.specs.NamedTable.{NamedTable};

use book::open;
use leaves::{Refusal, done};
use logic::Answer;
use ownwords::{own_bytes, put_atom, put_before, put_behind, put_between};
use put::Pen;

// Writes the text of node k.
fn put_node(pen: &mut Pen, f: &[u8], k: usize)
    requires { (k < nodes f.now) × NamedTable f.now × Space pen.old (text (tree f.now k)) }
    ensures { Writes pen.old (text (tree f.now k)) pen.new }
{
    let op = f[3 * k];
    let x = f[3 * k + 1];
    let y = f[3 * k + 2];
    if op <= 4 {
        put_atom(pen, op, x, y);
        return;
    }
    put_before(pen, op);
    put_node(pen, f, usize::from(x));
    if op == 8 {
        put_behind(pen, op);
        return;
    }
    put_between(pen, op);
    put_node(pen, f, usize::from(y));
    put_behind(pen, op);
}

// How many bytes the text of the whole formula has.
fn text_length(f: &[u8]) -> usize
    requires { KnownTable f.now }
    ensures { result ≡ length (text (tree f.now (root f.now))) }
{
    let mut bytes: usize = 0;
    for k in 0..f.len() / 3 {
        bytes += own_bytes(f[3 * k], f[3 * k + 1], f[3 * k + 2]);
    }
    bytes
}

// The text of a book, at the front of the output, or the refusal of the first part that fails, and then nothing changes.
fn book_to_text(book: &[u8], out: &mut [u8]) -> Result<(), Refusal>
    ensures { Exports book.now out.old (outcome result) out.new }
{
    let formula = open(book)?.formula;
    if out.len() < text_length(formula) {
        return Err(Refusal::OutputLength);
    }
    put_node(&mut Pen { out, at: 0 }, formula, formula.len() / 3 - 1);
    Ok(())
}

// The text of a book, at the front of the output: number 0, or the refusal of the first part that fails, and then nothing
// changes.
pub fn export(book: &[u8], out: &mut [u8]) -> Answer
    ensures { Exports book.now out.old result out.new }
{
    done(book_to_text(book, out))
}
