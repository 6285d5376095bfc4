// How often each node of a formula is a child, by one walk over the nodes.
#![tactic(auto)]

ghost use Rattle.std.specs.Prelude.{◌≡◌, ℕ, ◌+◌, ◌*◌, ◌<◌, ◌≤◌, length, get_or};
ghost use Rattle.logic.specs.Table.{NodeOk, Sound, uses};
ghost use Rattle.logic.specs.Book.{most_nodes, nodes};
ghost use Rattle.uses.specs.Counts.{OneMore, NodeMore};

use logic::NODES;

// The child x is used once more.
fn tally(t: &mut [u8], x: u8)
    requires { (x < length t.old) × (get_or t.old x 0 < 255) }
    ensures { OneMore t.old x t.new }
{
    t[usize::from(x)] += 1;
}

// Node j's children are used once more.
fn uses_by(f: &[u8], v: u8, j: usize, t: &mut [u8])
    requires { (3 * j + 2 < length f.now) × NodeOk v f.now j × (j < most_nodes) × (most_nodes ≤ length t.old) × ((k : ℕ) → get_or t.old k 0 ≤ 2 * j) }
    ensures { NodeMore f.now j t.old t.new }
{
    let op = f[3 * j];
    let a = f[3 * j + 1];
    let b = f[3 * j + 2];
    match op {
        1..=4 => {}
        8 => tally(t, a),
        _ => {
            tally(t, a);
            tally(t, b);
        }
    }
}

// How often each node is a child, in one walk.
pub fn count(f: &[u8], v: u8) -> [u8; NODES]
    requires { (nodes f.now ≤ most_nodes) × Sound v f.now (nodes f.now) }
    ensures { (k : ℕ) → get_or result k 0 ≡ uses f.now (nodes f.now) k }
{
    let mut t = [0u8; NODES];
    for j in 0..f.len() / 3 {
        uses_by(f, v, j, &mut t);
    }
    t
}
