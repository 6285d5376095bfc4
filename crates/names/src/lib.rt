// Names: how they are numbered as they first appear, and a term with its number.
#![tactic(auto)]

ghost use Rattle.std.specs.Prelude.{◌≡◌, ◌==◌, ◌≤◌, length, position, take};
ghost use Rattle.logic.specs.Book.{most};
ghost use Rattle.terms.specs.Letters.{letters_of};

use leaves::Refusal;
use logic::MOST;
use terms::term;
use words::skip;

// The names so far: the letters of each in base 256, in the order in which they first appeared. Those behind the last name are none.
#[derive(Clone, Copy)]
pub struct Names {
    pub letters: [u64; MOST],
    pub count: usize,
    pub ghost long: { length letters ≡ most },
    pub ghost few: { count ≤ most },
}

impl Names {
    ghost use Rattle.names.specs.Names.{NotedIs, taken, OperandIs};

    // Where w stands among the names.
    fn place_of(&self, w: u64) -> Option<usize>
        ensures { result ≡ position (λ l. l == w) (take self.now.count self.now.letters) }
    {
        self.letters[..self.count].iter().position(|l| *l == w)
    }

    // The number of the name w, which is noted where it is new. None where it is one name too many.
    fn numbered(&mut self, w: u64) -> Option<u8>
        ensures { NotedIs self.old (letters_of w) result self.new }
    {
        if let Some(i) = self.place_of(w) {
            return Some((i + 1) as u8);
        }
        if MOST <= self.count {
            return None;
        }
        self.letters[self.count] = w;
        self.count += 1;
        Some(self.count as u8)
    }

    // Where the term from `at` on ends, and its number; `last`: it is its list's last.
    pub fn operand(&mut self, s: &[u8], at: usize, last: bool) -> Result<(usize, u8), Refusal>
        requires { at ≤ length s.now }
        ensures { OperandIs s.now last at self.old (taken result) self.new }
    {
        let from = skip(s, at);
        let (end, name) = term(s, from, last)?;
        let Some(w) = name else {
            return Ok((end, 0));
        };
        let Some(number) = self.numbered(w) else {
            return Err(Refusal::ManyNames(from));
        };
        Ok((end, number))
    }
}
