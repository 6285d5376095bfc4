// The tree of a formula: whether every node but the root is the child of exactly one node, once. One walk over the nodes counts
// each node's parents; a second step goes up the counts.
#![tactic(auto)]

ghost use Rattle.std.specs.Prelude.{◌<◌, ◌≤◌};
ghost use Rattle.logic.specs.Checks.{Answers, upto};
ghost use Rattle.logic.specs.CheckLaws.{Yes};
ghost use Rattle.logic.specs.Table.{Sound};
ghost use Rattle.logic.specs.Book.{most_nodes, use_checks, nodes, root};
ghost use Rattle.leaves.specs.Refusals.{outcome};

use leaves::Refusal;
use uses::count;

// Every node but the root is the child of exactly one node, once. Where the root is alone there is nothing to count.
pub fn one_parent(f: &[u8], v: u8) -> Result<(), Refusal>
    requires { (0 < nodes f.now) × (nodes f.now ≤ most_nodes) × Sound v f.now (nodes f.now) }
    ensures { Answers (upto (use_checks f.now) (root f.now)) Yes (outcome result) }
{
    let last = f.len() / 3 - 1;
    if last == 0 {
        return Ok(());
    }
    let t = count(f, v);
    for k in 0..last {
        if t[k] != 1 {
            return Err(Refusal::TreeShape(k));
        }
    }
    Ok(())
}
