// An assignment's arrays as an array of arrays, indexed by array number and then by location.
#![tactic(auto)]

ghost use Rattle.std.specs.Prelude.{◌≡◌, ℕ, ◌+◌, ◌*◌, ◌≤◌, ltb, length, get_or};
ghost use Rattle.logic.specs.Tests.{pick};
ghost use Rattle.logic.specs.Book.{most};
ghost use Rattle.rows.specs.Bounds.{most_arrays};
ghost use Rattle.arrays.specs.Unpacked.{Unpacked};

use rows::{Arrays, Values};

// An array's values: its bytes, and zeros.
fn row(bytes: &[u8]) -> Values
    requires { length bytes.now ≤ most }
    ensures { ((j : ℕ) → get_or result j 0 ≡ get_or bytes.now j 0) × (length result ≡ most) }
{
    let mut r = [0u8; logic::MOST];
    r[..bytes.len()].copy_from_slice(bytes);
    r
}

// The arrays, indexed by array number and then by location.
pub fn unpack(q: &[u8], v: usize, n: usize, arrays: usize) -> Arrays
    requires { (n ≤ most) × (arrays ≤ most_arrays) × (v + arrays * n ≤ length q.now) }
    ensures { Unpacked v n arrays q.now result }
{
    let mut a = [[0u8; logic::MOST]; rows::ARRAYS];
    for i in 0..arrays {
        let at = v + i * n;
        a[i] = row(&q[at..at + n]);
    }
    a
}
