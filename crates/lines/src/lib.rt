// The lines that the program prints for an answer: the answer's own, and the stack line and the heap line of a model that was
// found.
#![tactic(auto)]

ghost use Rattle.std.specs.Prelude.{◌≡◌, ◌++◌, ◌+◌, ◌≤◌, length, drop};
ghost use Rattle.logic.specs.Book.{most};
ghost use Rattle.put.specs.Pens.{Space, Writes};
ghost use Rattle.lines.specs.Printed.{first_line, spaced, listed, line, Locations, printed_value, printed_model, printed};

use logic::Answer;
use put::Pen;

fn put_answer(pen: &mut Pen, a: Answer)
    requires { Space pen.old (first_line a) }
    ensures { Writes pen.old (first_line a) pen.new }
{
    pen.put_number(b"answer ", a.number);
    pen.put_number(b" place ", a.place);
    pen.put_number(b" tried ", a.tried);
    pen.put(b'\n');
}

// A location or a value, or '-' for a location that is not allocated.
fn put_value(pen: &mut Pen, x: u8)
    requires { Space pen.old (printed_value x) }
    ensures { Writes pen.old (printed_value x) pen.new }
{
    if x == 255 {
        pen.put(b'-');
        return;
    }
    pen.put_decimal(u64::from(x));
}

fn put_cell(pen: &mut Pen, x: u8)
    requires { Space pen.old (spaced printed_value x) }
    ensures { Writes pen.old (spaced printed_value x) pen.new }
{
    pen.put(b' ');
    put_value(pen, x);
}

fn put_cells(pen: &mut Pen, cells: &[u8])
    requires { Space pen.old (listed printed_value cells.now) }
    ensures { Writes pen.old (listed printed_value cells.now) pen.new }
{
    for x in cells {
        put_cell(pen, *x);
    }
}

fn put_line(pen: &mut Pen, word: &[u8], cells: &[u8])
    requires { Space pen.old (line word.now printed_value cells.now) }
    ensures { Writes pen.old (line word.now printed_value cells.now) pen.new }
{
    pen.put_word(word);
    put_cells(pen, cells);
    pen.put(b'\n');
}

// The stack line and the heap line of a model over v variables and n locations.
fn put_model(pen: &mut Pen, model: &[u8], v: usize, n: usize)
    requires { (v + n ≤ length model.now) × Locations v model.now × Space pen.old (printed_model v n model.now) }
    ensures { Writes pen.old (printed_model v n model.now) pen.new }
{
    let end = v + n;
    put_line(pen, b"stack", &model[0..v]);
    put_line(pen, b"heap", &model[v..end]);
}

// Writes what is printed for the answer to the front of the output, and gives back its length. The model is looked at only
// with number 0.
pub fn put_lines(a: Answer, model: &[u8], v: usize, n: usize, out: &mut [u8]) -> usize
    requires { (v ≤ most) × (n ≤ most) × (v + n ≤ length model.now) × Locations v model.now × (256 ≤ length out.old) }
    ensures value { result ≡ length (printed a v n model.now) }
    ensures out_after { out.new ≡ printed a v n model.now ++ drop (length (printed a v n model.now)) out.old }
{
    let found = a.number == logic::YES;
    let mut pen = Pen { out, at: 0 };
    put_answer(&mut pen, a);
    if !found {
        return pen.at;
    }
    put_model(&mut pen, model, v, n);
    pen.at
}
