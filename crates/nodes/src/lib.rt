// The nodes of a formula: whether each has an operator and operands as it should.
#![tactic(auto)]

ghost use Rattle.std.specs.Prelude.{◌≡◌, ◌+◌, ◌*◌, ◌<◌, length};
ghost use Rattle.logic.specs.Checks.{Answers, upto};
ghost use Rattle.logic.specs.CheckLaws.{Yes};
ghost use Rattle.logic.specs.Book.{node_checks, nodes as nodes_in};
ghost use Rattle.leaves.specs.Refusals.{outcome};

use leaves::Refusal;
use operands::operands;

fn node(f: &[u8], v: u8, k: usize) -> Result<(), Refusal>
    requires { 3 * k + 2 < length f.now }
    ensures { Answers (node_checks v f.now k) Yes (outcome result) }
{
    let op = f[3 * k];
    match op {
        1..=10 => {
            if operands(f, v, k, op) {
                Ok(())
            } else {
                Err(Refusal::Operand(k))
            }
        }
        _ => Err(Refusal::Operator(k)),
    }
}

// The nodes upwards.
pub fn nodes(f: &[u8], v: u8) -> Result<(), Refusal>
    ensures { Answers (upto (node_checks v f.now) (nodes_in f.now)) Yes (outcome result) }
{
    for k in 0..f.len() / 3 {
        node(f, v, k)?;
    }
    Ok(())
}
