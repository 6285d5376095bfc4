// Which formulas can be encoded: none with operator 9 or 10 below operator 8 or in the b side of operator 7.
#![tactic(auto)]

ghost use Rattle.std.specs.Prelude.{◌<◌};
ghost use Rattle.logic.specs.Reflect.{Is};
ghost use Rattle.logic.specs.Table.{tree};
ghost use Rattle.logic.specs.Book.{nodes, KnownTable};
ghost use Rattle.rows.specs.Table.{Flat, Encodable};

// Whether neither operator 9 nor 10 is in the tree of node k.
fn flat(f: &[u8], k: usize) -> bool
    requires { (k < nodes f.now) × KnownTable f.now }
    ensures { Is result (Flat (tree f.now k)) }
{
    let op = f[3 * k];
    let x = usize::from(f[3 * k + 1]);
    let y = usize::from(f[3 * k + 2]);
    match op {
        1..=4 => true,
        5..=7 => flat(f, x) && flat(f, y),
        8 => flat(f, x),
        _ => false,
    }
}

// Whether neither operator 9 nor 10 is below operator 8 or in the b side of operator 7, in the tree of node k.
pub fn encodable(f: &[u8], k: usize) -> bool
    requires { (k < nodes f.now) × KnownTable f.now }
    ensures { Is result (Encodable (tree f.now k)) }
{
    let op = f[3 * k];
    let x = usize::from(f[3 * k + 1]);
    let y = usize::from(f[3 * k + 2]);
    match op {
        1..=4 => true,
        5..=6 | 9..=10 => encodable(f, x) && encodable(f, y),
        7 => encodable(f, x) && flat(f, y),
        8 => flat(f, x),
        _ => false,
    }
}
