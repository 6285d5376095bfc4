// An assignment's bytes: how many nodes have arrays and sets of their own, and whether the bytes are in range.
#![tactic(auto)]

ghost use Rattle.std.specs.Prelude.{◌≡◌, ◌⊎◌, ◌*◌, ◌^◌, ◌≤◌, ◌<◌, leb};
ghost use Rattle.logic.specs.Checks.{Answers};
ghost use Rattle.logic.specs.CheckLaws.{Yes};
ghost use Rattle.logic.specs.Reflect.{Is};
ghost use Rattle.logic.specs.Tests.{pick};
ghost use Rattle.logic.specs.Table.{op_of};
ghost use Rattle.logic.specs.Book.{most, nodes};
ghost use Rattle.logic.specs.Weight.{sum};
ghost use Rattle.rows.specs.Bounds.{most_arrays, most_sets};
ghost use Rattle.rows.specs.Assigned.{assignment_checks};
ghost use Rattle.leaves.specs.Refusals.{outcome};

use leaves::Refusal;

// How many nodes have an operator above o.
pub fn above(f: &[u8], o: u8) -> usize
    ensures { (result ≡ sum (nodes f.now) (λ k. pick (leb (op_of f.now k) o) 0 1)) × (result ≤ nodes f.now) }
{
    let mut r = 0;
    for k in 0..f.len() / 3 {
        r += usize::from(f[3 * k] > o);
    }
    r
}

// Whether byte i, which is x, is a location or a value up to n or, from base on, a set below top.
fn is_value(base: usize, n: usize, top: usize, i: usize, x: u8) -> bool
    ensures { Is result (((i < base) × (x ≤ n)) ⊎ ((base ≤ i) × (x < top))) }
{
    let x = usize::from(x);
    if i < base { x <= n } else { x < top }
}

// Whether the bytes are an assignment over v variables, n locations, and so many arrays and sets: 21, 22.
pub fn in_range(q: &[u8], v: usize, n: usize, arrays: usize, sets: usize) -> Result<(), Refusal>
    requires { (v ≤ most) × (n ≤ most) × (arrays ≤ most_arrays) × (sets ≤ most_sets) × (arrays * n ≤ most_arrays * most) }
    ensures { Answers (assignment_checks v n arrays sets q.now) Yes (outcome result) }
{
    let base = v + arrays * n;
    if q.len() != base + sets {
        return Err(Refusal::AssignmentLength);
    }
    let top = 1 << n;
    for (i, x) in q.iter().enumerate() {
        if !is_value(base, n, top, i, *x) {
            return Err(Refusal::AssignmentValue(i));
        }
    }
    Ok(())
}
