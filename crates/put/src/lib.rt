// Bytes into the output, one behind the other: a byte, a word, a number in decimal. Each writer leaves every other byte as it was; the
// caller shows that there is room.
#![tactic(auto)]

ghost use Rattle.std.specs.Prelude.{◌≡◌, [], ◌∷◌, ◌<◌};
ghost use Rattle.put.specs.Decimal.{figure, decimal, numbered};
ghost use Rattle.put.specs.Pens.{Space, Writes};

// The digit d, as its byte.
fn figure_of(d: u64) -> u8
    requires { d < 10 }
    ensures { result ≡ figure d }
{
    48 + d as u8
}

// An output, and the place from which its next byte is written.
#[derive(Drop)]
pub struct Pen<'a> {
    pub out: &'a mut [u8],
    pub at: usize,
}

impl Pen<'_> {
    pub fn put(&mut self, x: u8)
        requires { Space self.old (x ∷ []) }
        ensures { Writes self.old (x ∷ []) self.new }
    {
        self.out[self.at] = x;
        self.at += 1;
    }

    pub fn put_word(&mut self, word: &[u8])
        requires { Space self.old word.now }
        ensures { Writes self.old word.now self.new }
    {
        let end = self.at + word.len();
        self.out[self.at..end].copy_from_slice(word);
        self.at = end;
    }

    pub fn put_decimal(&mut self, x: u64)
        requires { Space self.old (decimal x) }
        ensures { Writes self.old (decimal x) self.new }
    {
        if x < 10 {
            self.put(figure_of(x));
            return;
        }
        self.put_decimal(x / 10);
        self.put(figure_of(x % 10));
    }

    pub fn put_number(&mut self, word: &[u8], x: u64)
        requires { Space self.old (numbered word.now x) }
        ensures { Writes self.old (numbered word.now x) self.new }
    {
        self.put_word(word);
        self.put_decimal(x);
    }
}
