// One row and its bytes: the rows that stand alone, two rows and their AND, and a row with the AND of the result so far.
#![tactic(auto)]

ghost use Rattle.std.specs.Prelude.{◌≡◌, ◌++◌, [], ◌∷◌, ◌+◌, ◌-◌, ◌<◌};
ghost use Rattle.rows.specs.Row.{plain as plain_of, ten_bytes, bytes_of};
ghost use Rattle.rows.specs.Row.Row.{AND, OR, NOT};
ghost use Rattle.rowbytes.specs.Written.{Puts, Space, Kept};

use rows::{Fields, Next};

// A row of up to three operands.
pub fn plain(op: u8, a: u16, b: u16, c: u16) -> Fields
    ensures { result ≡ plain_of op a b c }
{
    Fields {
        op,
        k: 0,
        a,
        b,
        c,
        d: 0,
    }
}

// A row's ten bytes: of each operand the low byte comes first.
fn bytes(row: Fields) -> [u8; 10]
    ensures { result ≡ ten_bytes row }
{
    let [a, a_high] = row.a.to_le_bytes();
    let [b, b_high] = row.b.to_le_bytes();
    let [x, x_high] = row.c.to_le_bytes();
    let [y, y_high] = row.d.to_le_bytes();
    [row.op, row.k, a, a_high, b, b_high, x, x_high, y, y_high]
}

// Where rows are written, and the numbers that the next row, array and set get.
#[derive(Drop)]
pub struct Writer<'a> {
    pub out: &'a mut [u8],
    pub next: Next,
}

impl Writer<'_> {
    // Writes one row.
    pub fn put_row(&mut self, row: Fields)
        requires { Space self.old.next 1 self.old.out.now }
        ensures kept { Kept self.old self.new }
        ensures puts { Puts self.old.next 1 0 0 (ten_bytes row) self.new.next self.old.out.now self.new.out.now }
    {
        let s = self.next;
        let at = 10 * usize::from(s.row);
        self.out[at..at + 10].copy_from_slice(&bytes(row));
        self.next = Next {
            row: s.row + 1,
            ..s
        };
    }

    pub fn put_and(&mut self, x: u16, y: u16)
        requires { Space self.old.next 1 self.old.out.now }
        ensures kept { Kept self.old self.new }
        ensures puts { Puts self.old.next 1 0 0 (bytes_of (AND x y ∷ [])) self.new.next self.old.out.now self.new.out.now }
    {
        self.put_row(plain(7, x, y, 0));
    }

    pub fn put_or(&mut self, x: u16, y: u16)
        requires { Space self.old.next 1 self.old.out.now }
        ensures kept { Kept self.old self.new }
        ensures puts { Puts self.old.next 1 0 0 (bytes_of (OR x y ∷ [])) self.new.next self.old.out.now self.new.out.now }
    {
        self.put_row(plain(8, x, y, 0));
    }

    pub fn put_not(&mut self, x: u16)
        requires { Space self.old.next 1 self.old.out.now }
        ensures kept { Kept self.old self.new }
        ensures puts { Puts self.old.next 1 0 0 (bytes_of (NOT x ∷ [])) self.new.next self.old.out.now self.new.out.now }
    {
        self.put_row(plain(9, x, 0, 0));
    }

    // Writes two rows and their AND.
    pub fn put_pair(&mut self, x: Fields, y: Fields)
        requires { Space self.old.next 3 self.old.out.now }
        ensures kept { Kept self.old self.new }
        ensures puts { Puts self.old.next 3 0 0 (ten_bytes x ++ ten_bytes y ++ bytes_of (AND self.old.next.row (self.old.next.row + 1) ∷ [])) self.new.next self.old.out.now self.new.out.now }
    {
        let r = self.next.row;
        self.put_row(x);
        self.put_row(y);
        self.put_and(r, r + 1);
    }

    // Writes a row and the AND of the result so far, the row before it, with it.
    pub fn put_also(&mut self, x: Fields)
        requires { (0 < self.old.next.row) × Space self.old.next 2 self.old.out.now }
        ensures kept { Kept self.old self.new }
        ensures puts { Puts self.old.next 2 0 0 (ten_bytes x ++ bytes_of (AND (self.old.next.row - 1) self.old.next.row ∷ [])) self.new.next self.old.out.now self.new.out.now }
    {
        let r = self.next.row;
        self.put_row(x);
        self.put_and(r - 1, r);
    }
}
