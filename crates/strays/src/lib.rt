// Stray variables: which variables a formula's atoms name, as a mask, and whether each declared one is among them.
#![tactic(auto)]

ghost use Rattle.std.specs.Prelude.{◌≡◌, true, suc, ◌+◌, ◌*◌, ◌<◌, ◌≤◌, length};
ghost use Rattle.logic.specs.Checks.{Answers, upto};
ghost use Rattle.logic.specs.CheckLaws.{Yes};
ghost use Rattle.logic.specs.Reflect.{Is};
ghost use Rattle.logic.specs.Tests.{in_part};
ghost use Rattle.logic.specs.Table.{NodeOk, Sound};
ghost use Rattle.logic.specs.Book.{most, nodes};
ghost use Rattle.logic.specs.Strays.{NamedByAtom, name_checks};
ghost use Rattle.leaves.specs.Refusals.{outcome};
ghost use Rattle.strays.specs.Marks.{NamesAt, Marks};

use cells::bit;
use leaves::Refusal;

// Bit x for each variable x that node k names.
fn marks_of(f: &[u8], v: u64, k: usize) -> u64
    requires { (3 * k + 2 < length f.now) × NodeOk v f.now k × (v ≤ most) }
    ensures { Marks (NamesAt f.now k) result }
{
    let a = u64::from(f[3 * k + 1]);
    let b = u64::from(f[3 * k + 2]);
    match f[3 * k] {
        1..=4 => bit(a) | bit(b),
        _ => 0,
    }
}

// Bit x for each variable x that an atom names; bit 0 is for nil.
pub fn marks(f: &[u8], v: u64) -> u64
    requires { Sound v f.now (nodes f.now) × (v ≤ most) }
    ensures { Marks (NamedByAtom f.now) result }
{
    let mut m: u64 = 0;
    for k in 0..f.len() / 3 {
        m |= marks_of(f, v, k);
    }
    m
}

fn is_marked(m: u64, x: u64) -> bool
    requires { x ≤ most }
    ensures { Is result (in_part m (suc x) ≡ true) }
{
    (m >> x) % 2 == 1
}

// Whether an atom names each of the variables 1 to v; if not, the lowest that none names is refused.
pub fn named(f: &[u8], v: u64) -> Result<(), Refusal>
    requires { Sound v f.now (nodes f.now) × (v ≤ most) }
    ensures { Answers (upto (name_checks f.now) v) Yes (outcome result) }
{
    let m = marks(f, v);
    for x in 1..=v {
        if !is_marked(m, x) {
            return Err(Refusal::StrayVariable(x as usize));
        }
    }
    Ok(())
}
