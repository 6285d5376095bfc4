// A model's bytes as one number, and a formula's table with room for the most nodes: what the judge's core takes.
#![tactic(auto)]

ghost use Rattle.std.specs.Prelude.{◌≡◌, ℕ, ◌+◌, ◌*◌, ◌≤◌, ◌<◌, length, get_or};
ghost use Rattle.logic.specs.Book.{most_nodes};
ghost use Rattle.logic.specs.Reflect.{Is};
ghost use Rattle.cells.specs.Cells.{most};
ghost use Rattle.packing.specs.Packing.{item_of, packed_from, AtMost};

use logic::Table;

// A cell's digit, or a variable's location as it is.
fn item(x: u8, cell: bool) -> u64
    ensures { (result ≡ item_of cell x) × (result < 256) }
{
    u64::from(if cell { x.wrapping_add(1) } else { x })
}

// The stack or the heap that count bytes of a model are, packed.
pub fn packed(model: &[u8], from: usize, count: usize, cell: bool) -> u64
    requires { (count ≤ most) × (from + count ≤ length model.now) }
    ensures { result ≡ packed_from cell model.now from count 0 }
{
    let mut w: u64 = 0;
    for i in (0..count).rev() {
        w = w * 256 + item(model[from + i], cell);
    }
    w
}

// Whether each byte of w is at most k, of all bytes at once: none has a bit in its upper half, and where what k lacks to 15 is
// added to each, none carries into bit 4.
pub fn is_at_most(w: u64, k: u64) -> bool
    requires { k < 16 }
    ensures { Is result (AtMost w k) }
{
    w & 0xf0f0_f0f0_f0f0_f0f0 == 0
        && (w + (15 - k) * 0x0101_0101_0101_0101) & 0x1010_1010_1010_1010 == 0
}

// The formula's table with zeros after it, as the judge's core takes it.
pub fn table_of(f: &[u8]) -> Table
    requires { length f.now ≤ 3 * most_nodes }
    ensures { (i : ℕ) → get_or result i 0 ≡ get_or f.now i 0 }
{
    let mut t = [0u8; logic::TABLE];
    t[..f.len()].copy_from_slice(f);
    t
}
