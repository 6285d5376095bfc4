// The second judge: a witness beside the bench, for the program `examples`. It is proved safe and ending, not right: no promise
// rests on it, and so its functions state nothing of what they give back.
//
// For a fixed stack it works out, node after node from the first, the set of all heaps that fit the node: an atom's heaps are
// looked at one by one, a connective's come from its children's sets. No heap is taken apart, and of the bench only the number
// of nodes and the length of a model are used. Stacks and heaps are numbers, a digit for each variable (base n + 1) or location
// (base n + 2); two strongly disjoint heaps together have the sum of their numbers. Three variables and three locations at the
// most.
#![tactic(auto)]

ghost use Rattle.std.specs.Prelude.{◌≤◌, ◌<◌, length};

use logic::{MODEL, NODES};

// The most variables and locations.
const VARIABLES: u8 = 3;

const LOCATIONS: u8 = 3;

// As many heaps as there are over the most locations.
const HEAPS: usize = 125;

// How many variables and locations a model has, and how many links a path may have.
#[derive(Clone, Copy)]
pub struct Bounds {
    pub variables: u8,
    pub locations: u8,
    pub path: u8,
}

impl Bounds {
    // Whether the second judge can judge within these bounds.
    pub fn can_judge(self) -> bool {
        self.variables <= VARIABLES && self.locations <= LOCATIONS
    }
}

// A node of a formula, as its three bytes say.
#[derive(Clone, Copy)]
enum Node {
    Atom(Atom, u8, u8),
    Connective(Connective, usize, usize),
    Star(usize, usize),
    Septraction(usize, usize),
}

#[derive(Clone, Copy)]
enum Atom {
    Equal,
    Different,
    PointsTo,
    List,
}

#[derive(Clone, Copy)]
enum Connective {
    And,
    Or,
    AndNot,
    Not,
}

impl Node {
    fn read(bytes: &[u8]) -> Option<Node> {
        let [operator, x, y] = bytes else {
            return None;
        };
        let a = usize::from(*x);
        let b = usize::from(*y);
        let node = match *operator {
            1 => Node::Atom(Atom::Equal, *x, *y),
            2 => Node::Atom(Atom::Different, *x, *y),
            3 => Node::Atom(Atom::PointsTo, *x, *y),
            4 => Node::Atom(Atom::List, *x, *y),
            5 => Node::Connective(Connective::And, a, b),
            6 => Node::Connective(Connective::Or, a, b),
            7 => Node::Connective(Connective::AndNot, a, b),
            8 => Node::Connective(Connective::Not, a, b),
            9 => Node::Star(a, b),
            10 => Node::Septraction(a, b),
            _ => return None,
        };
        Some(node)
    }
}

// Whether an atom of the formula f names the variable x.
fn is_named(f: &[u8], x: u8) -> bool {
    f.chunks_exact(3).any(
        |node| matches!(Node::read(node), Some(Node::Atom(_, a, b)) if a == x || b == x),
    )
}

// The lowest of the variables 1 to v that no atom of the formula f names.
pub fn stray(f: &[u8], v: u8) -> Option<u8> {
    (1..=v).find(|x| !is_named(f, *x))
}

// A number that is read as digits.
#[derive(Clone, Copy)]
struct Digits {
    number: u8,
    base: u8,
    ghost some: { 0 < base },
}

impl Digits {
    // What is left above the k lowest digits, of which there are three at the most. Case by case and not in a loop, since the program
    // `examples` spends much of its time here.
    fn above(self, k: u8) -> u8 {
        match k {
            0 => self.number,
            1 => self.number / self.base,
            2 => self.number / self.base / self.base,
            3 => self.number / self.base / self.base / self.base,
            _ => 0,
        }
    }

    // Digit i, the lowest being digit 1. Nil has no digit: it is at location 0 and unallocated.
    fn digit(self, i: u8) -> u8 {
        if i == 0 {
            return 0;
        }
        self.above(i - 1) % self.base
    }
}

// What is left of x above its k lowest digits in that base.
pub fn above(x: u8, base: u8, k: u8) -> u8 {
    if base == 0 {
        return 0;
    }
    Digits { number: x, base }.above(k)
}

// The set that has location l alone: bit l.
fn bit(l: u8) -> u8 {
    match l {
        0..=LOCATIONS => 1 << l,
        _ => 0,
    }
}

// The base of a stack's number, n + 1.
pub fn stack_base(n: u8) -> u8
    ensures { (0 < result) × (result ≤ 4) }
{
    n.min(LOCATIONS) + 1
}

// A heap: digit l is 0 where location l is free, and else the value there plus 1.
#[derive(Clone, Copy)]
pub struct Heap {
    digits: Digits,
}

impl Heap {
    // The heap's number: of two strongly disjoint heaps together it is the sum of theirs.
    fn number(self) -> usize
        ensures { result ≤ 255 }
    {
        usize::from(self.digits.number)
    }

    // The value at location l where it is allocated.
    fn value(self, l: u8) -> Option<u8> {
        self.digits.digit(l).checked_sub(1)
    }

    // The allocated locations. The ranges here and in `locations` are half open, since those the compiler unrolls.
    fn allocated(self) -> u8 {
        let mut all = 0;
        for l in 1..LOCATIONS + 1 {
            if self.value(l).is_some() {
                all |= bit(l);
            }
        }
        all
    }

    // The allocated locations with all values.
    fn locations(self) -> u8 {
        let mut all = self.allocated();
        for l in 1..LOCATIONS + 1 {
            if let Some(y) = self.value(l) {
                all |= bit(y);
            }
        }
        all
    }

    // A chain from x to y, and nothing besides: over three locations it has at most three links. The walk stays at y when it
    // first gets there, so no location is met twice.
    fn is_list(self, x: u8, y: u8) -> bool {
        let mut at = x;
        let mut left = 0;
        for _ in 0..LOCATIONS {
            if at != y
                && let Some(next) = self.value(at)
            {
                left |= bit(at);
                at = next;
            }
        }
        at == y && left == self.allocated()
    }

    // Whether a path of more than p links starts at l: each goes on to a location that is not on the path.
    fn is_long_from(self, l: u8, p: u8) -> bool {
        let mut at = l;
        let mut met = bit(l);
        for _ in 0..=p {
            let Some(next) = self.value(at) else {
                return false;
            };
            if met & bit(next) != 0 {
                return false;
            }
            met |= bit(next);
            at = next;
        }
        true
    }

    // Whether no path has more than p links.
    fn is_short(self, p: u8) -> bool {
        !(1..=LOCATIONS).any(|l| self.is_long_from(l, p))
    }
}

impl Atom {
    // Whether the heap h fits the atom over x and y.
    fn fits(self, x: u8, y: u8, h: Heap) -> bool {
        match self {
            Atom::Equal => x == y && h.number() == 0,
            Atom::Different => x != y && h.number() == 0,
            Atom::PointsTo => x != 0 && h.allocated() == bit(x) && h.value(x) == Some(y),
            Atom::List => h.is_list(x, y),
        }
    }
}

impl Connective {
    fn holds(self, a: bool, b: bool) -> bool {
        match self {
            Connective::And => a && b,
            Connective::Or => a || b,
            Connective::AndNot => a && !b,
            Connective::Not => !a,
        }
    }
}

// The bounds and the stack, as every node of the formula sees them; bit l of `named` is for the named location l.
#[derive(Clone, Copy)]
pub struct World {
    bounds: Bounds,
    stack: Digits,
    named: u8,
}

impl World {
    // The numbers of stacks are below it.
    pub const STACKS: u8 = 64;

    // The world of the stack with this number. A variable past the last is at nil, which is named anyway.
    pub fn of(bounds: Bounds, number: u8) -> World {
        let stack = Digits {
            number,
            base: stack_base(bounds.locations),
        };
        let mut named = bit(0);
        for x in 1..=VARIABLES {
            named |= bit(stack.digit(x));
        }
        World {
            bounds,
            stack,
            named,
        }
    }

    // The same where the stack is one within these bounds: it has no digit beyond the variables.
    pub fn new(bounds: Bounds, number: u8) -> Option<World> {
        let world = World::of(bounds, number);
        if bounds.can_judge() && world.stack.above(bounds.variables) == 0 {
            Some(world)
        } else {
            None
        }
    }

    // The location of the variable x.
    fn value(self, x: u8) -> u8 {
        self.stack.digit(x)
    }

    // How many heaps there are, (n + 2)^n.
    pub fn heaps(self) -> u8 {
        match self.bounds.locations {
            0 => 1,
            1 => 3,
            2 => 16,
            _ => 125,
        }
    }

    // The heap with this number.
    pub fn heap(self, number: u8) -> Heap {
        Heap {
            digits: Digits {
                number,
                base: stack_base(self.bounds.locations) + 1,
            },
        }
    }

    fn are_strongly_disjoint(self, g: Heap, h: Heap) -> bool {
        if g.allocated() & h.allocated() != 0 {
            return false;
        }
        let shared = g.locations() & h.locations();
        shared & self.named == shared
    }
}

// The sets of all nodes of a formula in one world: whether each heap fits each node, the root being the last.
#[derive(Clone, Copy)]
pub struct Sets {
    world: World,
    root: usize,
    fit: [[bool; HEAPS]; NODES],
}

impl Sets {
    // The sets of the nodes of the formula f, a node's after its children's.
    pub fn of(f: &[u8], world: World) -> Sets {
        let mut sets = Sets {
            world,
            root: (f.len() / 3).saturating_sub(1),
            fit: [[false; HEAPS]; NODES],
        };
        for (k, bytes) in f.chunks_exact(3).enumerate() {
            if let Some(node) = Node::read(bytes) {
                sets.fill(k, node);
            }
        }
        sets
    }

    // Whether the heap with number h is in node k's set.
    fn has(&self, k: usize, h: usize) -> bool {
        k < NODES && h < HEAPS && self.fit[k][h]
    }

    // Puts the heap with number h into node k's set.
    fn add(&mut self, k: usize, h: usize) {
        if k < NODES && h < HEAPS {
            self.fit[k][h] = true;
        }
    }

    // Fills node k's set, which comes from its children's.
    fn fill(&mut self, k: usize, node: Node) {
        let w = self.world;
        for number in 0..w.heaps() {
            let h = w.heap(number);
            match node {
                Node::Atom(atom, x, y) => {
                    if atom.fits(w.value(x), w.value(y), h) {
                        self.add(k, h.number());
                    }
                }
                Node::Connective(connective, a, b) => {
                    if connective.holds(self.has(a, h.number()), self.has(b, h.number())) {
                        self.add(k, h.number());
                    }
                }
                Node::Star(a, b) => {
                    if self.has(a, h.number()) {
                        self.fill_star(k, h, b);
                    }
                }
                Node::Septraction(a, b) => {
                    if self.has(a, h.number()) {
                        self.fill_septraction(k, h, b);
                    }
                }
            }
        }
    }

    // Node k is a * b: g fits a, so g fits k together with each heap of b's set that is strongly disjoint from it.
    fn fill_star(&mut self, k: usize, g: Heap, b: usize) {
        let w = self.world;
        for number in 0..w.heaps() {
            let h = w.heap(number);
            if self.has(b, h.number()) && w.are_strongly_disjoint(g, h) {
                self.add(k, g.number() + h.number());
            }
        }
    }

    // Node k is the septraction of a and b: g fits a, so k is fitted by each heap that is strongly disjoint from g and is in b's
    // set together with it.
    fn fill_septraction(&mut self, k: usize, g: Heap, b: usize) {
        let w = self.world;
        for number in 0..w.heaps() {
            let h = w.heap(number);
            if self.has(b, g.number() + h.number()) && w.are_strongly_disjoint(g, h) {
                self.add(k, h.number());
            }
        }
    }

    // Whether the heap h, as a model's, fits node k: it is in the node's set, and no path is too long.
    pub fn node_fits(&self, k: usize, h: Heap) -> bool {
        self.has(k, h.number()) && h.is_short(self.world.bounds.path)
    }

    // The same for the root.
    pub fn fits(&self, h: Heap) -> bool {
        self.node_fits(self.root, h)
    }
}

// A model's bytes, 0 behind its end.
#[derive(Clone, Copy)]
pub struct Model {
    pub bytes: [u8; MODEL],
    size: usize,
    ghost within: { size ≤ length bytes },
}

impl Model {
    // The model with the stack of w and the heap h.
    pub fn new(w: World, h: Heap) -> Model {
        let mut model = Model {
            bytes: [0; MODEL],
            size: 0,
        };
        for x in 1..=w.bounds.variables {
            model.push(w.value(x));
        }
        for l in 1..=w.bounds.locations {
            model.push(h.value(l).unwrap_or(255));
        }
        model
    }

    // Adds the byte if there is room.
    fn push(&mut self, byte: u8) {
        if self.size < MODEL {
            self.bytes[self.size] = byte;
            self.size += 1;
        }
    }

    pub fn as_slice(&self) -> &[u8] {
        &self.bytes[..self.size]
    }
}
