// The head of a book that is written: its contents and its bounds.
#![tactic(auto)]

ghost use Rattle.std.specs.Prelude.{◌≡◌, ◌++◌, ◌≤◌, length, drop};
ghost use Rattle.logic.specs.Book.{head_of};

// Where the second body begins.
pub const HEAD: usize = 14;

// Writes the head of a book whose second body has that kind and so many bytes.
pub fn put_head(out: &mut [u8], kind: u8, v: u8, n: u8, p: u8, size: u16)
    requires { 14 ≤ length out.old }
    ensures { out.new ≡ head_of kind v n p size ++ drop 14 out.old }
{
    let [low, high] = size.to_le_bytes();
    out[..HEAD].copy_from_slice(&[2, 1, 11, 0, 3, 0, kind, 14, 0, low, high, v, n, p]);
}
