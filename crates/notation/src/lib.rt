// The notation of the examples, and the books, models and assignments that are made of it: a tool of the program `examples`. It
// is proved safe and ending, not right: no promise rests on it, and so its functions state nothing of what they give back.
//
// Formulas: 0 is nil, x y z u v are variables 1 to 5. x=y, x#y (different), x>y (points to), x~y (list). !a is not; (a & b) and,
// (a + b) or, (a - b) a and not b, (a * b), (a @ b) septraction; each pair in parentheses, and no two negations in a row.
// E is nil = nil, N is !E, T is (E + N), as true is written in document 003, 7.3.1.
//
// Models and assignments: a digit for each byte, - for 255; anything else is skipped.
#![tactic(auto)]

ghost use Rattle.std.specs.Prelude.{◌≤◌, length};

use logic::{MODEL, NODES};

// Up to N items, in fixed memory.
#[derive(Drop)]
pub struct Items<T: Copy, const N: usize> {
    room: [T; N],
    count: usize,
    ghost within: { count ≤ length room },
}

impl<T: Copy, const N: usize> Items<T, N> {
    // None yet; the room is blank.
    fn new(blank: T) -> Self {
        Items {
            room: [blank; N],
            count: 0,
        }
    }

    pub fn as_slice(&self) -> &[T] {
        &self.room[..self.count]
    }

    // Adds an item at the end, if there is room.
    fn push(&mut self, item: T) {
        if self.count < N {
            self.room[self.count] = item;
            self.count += 1;
        }
    }

    // Adds these items, as far as there is room.
    fn extend(&mut self, items: &[T]) {
        for item in items {
            self.push(*item);
        }
    }

    // Takes the last item away.
    fn pop(&mut self) -> Option<T> {
        if self.count == 0 {
            return None;
        }
        self.count -= 1;
        Some(self.room[self.count])
    }
}

// The operators, with their numbers in a book.
#[derive(Clone, Copy)]
enum Operator {
    Equal = 1,
    Different = 2,
    PointsTo = 3,
    List = 4,
    And = 5,
    Or = 6,
    AndNot = 7,
    Not = 8,
    Star = 9,
    Septraction = 10,
}

// What waits for its last child, and the parenthesis that holds it.
#[derive(Clone, Copy)]
enum Waiting {
    Parenthesis,
    Negation,
    Pair(Operator),
}

// A formula in the making: its nodes so far, the nodes that are no child yet, what waits, and the atom that is being read (with
// no relation: its left side only).
#[derive(Drop)]
struct Draft {
    nodes: Items<[u8; 3], NODES>,
    roots: Items<u8, NODES>,
    waiting: Items<Waiting, NODES>,
    left: u8,
    relation: Option<Operator>,
}

impl Draft {
    fn of(formula: &[u8]) -> Draft {
        let mut draft = Draft {
            nodes: Items::new([0; 3]),
            roots: Items::new(0),
            waiting: Items::new(Waiting::Parenthesis),
            left: 0,
            relation: None,
        };
        for c in formula {
            draft.take(*c);
        }
        draft
    }

    // The node comes next, and is no child yet.
    fn add(&mut self, operator: Operator, a: u8, b: u8) {
        self.roots.push(self.nodes.count as u8);
        self.nodes.push([operator as u8, a, b]);
    }

    // The last node is whole: a negation in front of it takes it.
    fn end_node(&mut self) {
        if let Some(Waiting::Negation) = self.waiting.as_slice().last() {
            self.waiting.pop();
            let a = self.roots.pop().unwrap_or(0);
            self.add(Operator::Not, a, 0);
        }
    }

    // A pair ends: the operator that waits takes the last two nodes, and goes with its parenthesis.
    fn end_pair(&mut self) {
        let waiting = self.waiting.pop();
        self.waiting.pop();
        let b = self.roots.pop().unwrap_or(0);
        let a = self.roots.pop().unwrap_or(0);
        if let Some(Waiting::Pair(operator)) = waiting {
            self.add(operator, a, b);
            self.end_node();
        }
    }

    fn variable(&mut self, x: u8) {
        match self.relation.take() {
            None => self.left = x,
            Some(relation) => {
                self.add(relation, self.left, x);
                self.end_node();
            }
        }
    }

    fn relate(&mut self, relation: Operator) {
        self.relation = Some(relation);
    }

    fn pair(&mut self, operator: Operator) {
        self.waiting.push(Waiting::Pair(operator));
    }

    fn empty(&mut self) {
        self.add(Operator::Equal, 0, 0);
        self.end_node();
    }

    fn not_empty(&mut self) {
        self.waiting.push(Waiting::Negation);
        self.empty();
        self.end_node();
    }

    fn truth(&mut self) {
        self.waiting.push(Waiting::Parenthesis);
        self.empty();
        self.pair(Operator::Or);
        self.not_empty();
        self.end_pair();
    }

    fn take(&mut self, c: u8) {
        match c {
            b'0' => self.variable(0),
            b'x' => self.variable(1),
            b'y' => self.variable(2),
            b'z' => self.variable(3),
            b'u' => self.variable(4),
            b'v' => self.variable(5),
            b'=' => self.relate(Operator::Equal),
            b'#' => self.relate(Operator::Different),
            b'>' => self.relate(Operator::PointsTo),
            b'~' => self.relate(Operator::List),
            b'E' => self.empty(),
            b'N' => self.not_empty(),
            b'T' => self.truth(),
            b'(' => self.waiting.push(Waiting::Parenthesis),
            b'!' => self.waiting.push(Waiting::Negation),
            b'&' => self.pair(Operator::And),
            b'+' => self.pair(Operator::Or),
            b'-' => self.pair(Operator::AndNot),
            b'*' => self.pair(Operator::Star),
            b'@' => self.pair(Operator::Septraction),
            b')' => self.end_pair(),
            _ => {}
        }
    }
}

// The bytes of a book, with more room than the longest takes.
pub type Book = Items<u8, 256>;

// The book with these bounds v n p and this formula.
pub fn book(bounds: &[u8], formula: &[u8]) -> Book {
    let nodes = Draft::of(formula).nodes;
    let mut book = Book::new(0);
    book.extend(&[2, 1, 11, 0, 3, 0, 2, 14, 0, (3 * nodes.count) as u8, 0]);
    book.extend(bounds);
    for node in nodes.as_slice() {
        book.extend(node);
    }
    book
}

// The bytes of a model or an assignment, at most as many as a model has.
pub type Bytes = Items<u8, MODEL>;

// The bytes that these digits are.
pub fn bytes(digits: &[u8]) -> Bytes {
    let mut bytes = Bytes::new(0);
    for c in digits {
        match *c {
            b'-' => bytes.push(255),
            b'0'..=b'9' => bytes.push(*c - b'0'),
            _ => {}
        }
    }
    bytes
}
