// The paths of a heap, which is one number: whether one of them is too long.
#![tactic(auto)]

ghost use Rattle.std.specs.Prelude.{◌≡◌, suc, ◌-◌, ◌<◌, ◌≤◌};
ghost use Rattle.logic.specs.Heap.{Heap};
ghost use Rattle.logic.specs.Paths.{NoLongPath};
ghost use Rattle.logic.specs.PathLaws.{size, PathFrom};
ghost use Rattle.logic.specs.Reflect.{Is};
ghost use Rattle.cells.specs.Cells.{most, cells};

use cells::bit;

// How many locations are allocated. A byte that is not 0 carries into its top bit; the remainder by 255 adds the bytes up.
fn count(w: u64) -> u64
    requires { Heap most (cells w) }
    ensures { result ≡ size most (cells w) }
{
    (((w + 0x7f7f_7f7f_7f7f_7f7f) & 0x8080_8080_8080_8080) >> 7) % 255
}

// The digit at the location that has digit d: 0 at none, at nil, and where there is no cell. One test, as `cell` has it, and no
// second one: the compiler then branches at neither.
fn next(w: u64, d: u64) -> u64
    requires { d ≤ suc most }
    ensures { result ≡ cells w (d - 1) }
{
    if d < 2 {
        return 0;
    }
    (w >> (8 * (d - 2))) % 256
}

// Whether a simple path of more than p links starts at l. The walk notes the digits that it meets, and from the start 0, in m: a
// step that finds its digit there has no cell to go on from, or comes back, and is missed. It goes on all the same, so that no
// branch waits for a heap.
fn is_long_from(w: u64, l: u64, p: u64) -> bool
    requires { (l ≤ most) × (p < most) × Heap most (cells w) }
    ensures { Is result (PathFrom (suc p) l (cells w)) }
{
    let mut d = l + 1;
    let mut m = 1 | bit(d);
    let mut missed: u64 = 0;
    for _ in 0..p + 1 {
        d = next(w, d);
        missed |= m >> d;
        m |= bit(d);
    }
    missed % 2 == 0
}

// Whether no simple path has more than p links. None has more than n, nor more than there are cells.
pub fn is_short(n: u64, p: u64, w: u64) -> bool
    requires { (n ≤ most) × Heap n (cells w) }
    ensures { Is result (NoLongPath p (cells w)) }
{
    if n <= p || count(w) <= p {
        return true;
    }
    for l in 1..n + 1 {
        if is_long_from(w, l, p) {
            return false;
        }
    }
    true
}
