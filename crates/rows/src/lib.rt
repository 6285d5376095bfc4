// The table of rows that a formula is encoded as. There is no code here; what a reader must believe is in specs/.
#![tactic(auto)]

use logic::MOST;

// The values of an array, by location, and as many arrays as a formula may have.
pub const ARRAYS: usize = 32;

pub type Values = [u8; MOST];

pub type Arrays = [Values; ARRAYS];

// A row as it is written: its operator, k and four operands.
#[derive(Clone, Copy)]
pub struct Fields {
    pub op: u8,
    pub k: u8,
    pub a: u16,
    pub b: u16,
    pub c: u16,
    pub d: u16,
}

// The numbers that the next row, the next array and the next set get.
#[derive(Clone, Copy)]
pub struct Next {
    pub row: u16,
    pub array: u16,
    pub set: u16,
}
