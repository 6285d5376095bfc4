// The operands of a node: by the table of the operand kinds, whether each is as it should be.
#![tactic(auto)]

ghost use Rattle.std.specs.Prelude.{◌≡◌, [], ◌∷◌, ◌+◌, ◌*◌, ◌<◌, ◌≤◌, length, map};
ghost use Rattle.logic.specs.Reflect.{Is};
ghost use Rattle.logic.specs.Table.{op_of, kind_of, Operand, OperandsOk};
ghost use Rattle.operands.specs.Kinds.{code};

// What an operand is.
#[derive(Clone, Copy)]
enum OperandKind {
    Zero,
    Variable,
    Child,
}

// What the operands a and b of operators 1 to 10 are.
static KINDS: [[OperandKind; 2]; 10] = [
    [OperandKind::Variable, OperandKind::Variable],
    [OperandKind::Variable, OperandKind::Variable],
    [OperandKind::Variable, OperandKind::Variable],
    [OperandKind::Variable, OperandKind::Variable],
    [OperandKind::Child, OperandKind::Child],
    [OperandKind::Child, OperandKind::Child],
    [OperandKind::Child, OperandKind::Child],
    [OperandKind::Child, OperandKind::Zero],
    [OperandKind::Child, OperandKind::Child],
    [OperandKind::Child, OperandKind::Child],
];

// What the operands a and b of that operator are.
fn kinds(op: u8) -> [OperandKind; 2]
    requires { (1 ≤ op) × (op ≤ 10) }
    ensures { map code result ≡ kind_of op 0 ∷ kind_of op 1 ∷ [] }
{
    KINDS[usize::from(op - 1)]
}

// Whether x may be an operand of that kind at node k.
fn is_operand(v: u8, k: usize, kind: OperandKind, x: u8) -> bool
    ensures { Is result (Operand v k (code kind) x) }
{
    match kind {
        OperandKind::Zero => x == 0,
        OperandKind::Variable => x <= v,
        OperandKind::Child => usize::from(x) < k,
    }
}

// Whether both operands of node k are as they should be.
pub fn operands(f: &[u8], v: u8, k: usize, op: u8) -> bool
    requires { (3 * k + 2 < length f.now) × (op ≡ op_of f.now k) × (1 ≤ op) × (op ≤ 10) }
    ensures { Is result (OperandsOk v f.now k) }
{
    let [a, b] = kinds(op);
    is_operand(v, k, a, f[3 * k + 1]) && is_operand(v, k, b, f[3 * k + 2])
}
