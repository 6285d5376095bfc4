// Whether bytes are a model over given bounds: their number, and each of them in range; and the model as the judge's core takes it.
#![tactic(auto)]

ghost use Rattle.std.specs.Prelude.{◌+◌, ◌≤◌};
ghost use Rattle.logic.specs.Checks.{Answers, upto};
ghost use Rattle.logic.specs.CheckLaws.{Yes};
ghost use Rattle.logic.specs.Reflect.{Is};
ghost use Rattle.logic.specs.Book.{most};
ghost use Rattle.logic.specs.Model.{InRange, byte_checks};
ghost use Rattle.leaves.specs.Refusals.{outcome};
ghost use Rattle.ranges.specs.Packs.{Long, Holding, Packs};

use leaves::Refusal;
use packing::{is_at_most, packed};

// A model that was packed: its stack and its heap.
#[derive(Clone, Copy)]
pub struct Packed {
    pub stack: u64,
    pub heap: u64,
}

// A cell's byte is in range if its digit is.
fn is_in_range(v: usize, n: usize, i: usize, x: u8) -> bool
    requires { n ≤ most }
    ensures { Is result (InRange v n i x) }
{
    if i < v {
        usize::from(x) <= n
    } else {
        usize::from(x.wrapping_add(1)) <= n + 1
    }
}

// The first byte that is out of range is refused.
fn first_out(v: usize, n: usize, model: &[u8]) -> Result<(), Refusal>
    requires { Long v n model.now }
    ensures { Answers (upto (byte_checks v n model.now) (v + n)) Yes (outcome result) }
{
    for (i, x) in model.iter().enumerate() {
        if !is_in_range(v, n, i, *x) {
            return Err(Refusal::ModelValue(i));
        }
    }
    Ok(())
}

// Whether each byte is in range: of all at once, and one by one only where a byte is not, for its place.
fn in_range(v: usize, n: usize, model: &[u8], stack: u64, heap: u64) -> Result<(), Refusal>
    requires { Holding v n model.now stack heap }
    ensures { Answers (upto (byte_checks v n model.now) (v + n)) Yes (outcome result) }
{
    if is_at_most(stack, n as u64) && is_at_most(heap, n as u64 + 1) {
        Ok(())
    } else {
        first_out(v, n, model)
    }
}

// The model over v variables and n locations that the bytes are, packed; or they are refused, 17 and 18.
pub fn pack(v: usize, n: usize, model: &[u8]) -> Result<Packed, Refusal>
    requires { (v ≤ most) × (n ≤ most) }
    ensures { Packs v n model.now result }
{
    if model.len() != v + n {
        return Err(Refusal::ModelLength);
    }
    let stack = packed(model, 0, v, false);
    let heap = packed(model, v, n, true);
    in_range(v, n, model, stack, heap)?;
    Ok(Packed { stack, heap })
}
