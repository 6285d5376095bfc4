// What every call gives back: a number, a place and a tried count. There is no code here; what a reader must believe is in specs/.
#![tactic(auto)]

#[repr(C)]
#[derive(Clone, Copy)]
pub struct Answer {
    pub number: u64,
    pub place: u64,
    pub tried: u64,
}

// The most that v, n and p may be.
pub const MOST: usize = 8;

// The most bytes of a model.
pub const MODEL: usize = 2 * MOST;

// The most nodes that a formula may have, and a table with room for them.
pub const NODES: usize = 64;

pub const TABLE: usize = 3 * NODES;

pub type Table = [u8; TABLE];

// "A profile, picked by the caller": what operators 9 and 10 ask of two heaps. See specs/Heap.antt.
#[derive(Clone, Copy)]
pub enum Profile {
    Strong,
    Ordinary,
}

// The numbers, as specs/Numbers.antt lists them.
pub const YES: u64 = 0;

pub const NO: u64 = 1;

pub const SPENT: u64 = 2;

pub const BOOK_LENGTH: u64 = 10;

pub const CONTENTS: u64 = 11;

pub const BOUNDS: u64 = 12;

pub const FORMULA_LENGTH: u64 = 13;

pub const OPERATOR: u64 = 14;

pub const OPERAND: u64 = 15;

pub const TREE_SHAPE: u64 = 16;

pub const MODEL_LENGTH: u64 = 17;

pub const MODEL_VALUE: u64 = 18;

pub const NOT_ENCODABLE: u64 = 19;

pub const OUTPUT_LENGTH: u64 = 20;

pub const ASSIGNMENT_LENGTH: u64 = 21;

pub const ASSIGNMENT_VALUE: u64 = 22;

pub const ENTRY_KIND: u64 = 23;

pub const ENTRY_STRETCH: u64 = 24;

pub const STRAY_VARIABLE: u64 = 25;

pub const BAD_TEXT: u64 = 26;

pub const MANY_NODES: u64 = 27;

pub const MANY_NAMES: u64 = 28;
