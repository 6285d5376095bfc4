// The candidates: a stack and a heap whose digits are counted upward, and their bytes. Each is packed in one number, as the
// judge takes it.
#![tactic(auto)]

ghost use Rattle.std.specs.Prelude.{◌≡◌, ◌++◌, ◌+◌, ◌*◌, ◌^◌, ◌<◌, ◌≤◌, length, drop};
ghost use Rattle.cells.specs.Cells.{most, cells};
ghost use Rattle.logic.specs.Candidates.{InBase, total as total_of, bytes_to, model_bytes};
ghost use Rattle.candidates.specs.Counter.{Carries, Cleared, Bumps, Unpacks, WithinBounds, number, Next, Passes, plus};
ghost use Rattle.skips.specs.Blocks.{weight, after};

use cells::{cell, placed};

// The stack, by variable, and the heap, by location, with the bounds that they are in.
#[derive(Clone, Copy)]
pub struct Candidate {
    pub heap: u64,
    pub stack: u64,
    pub vars: u64,
    pub locs: u64,
}

// One more at digit j + 1, in the digits for 1 to k in base b; after the last comes 0.
fn carry(w: u64, j: u64, k: u64, b: u64) -> u64
    requires { (j ≤ k) × (k ≤ most) × (b ≤ 256) × InBase b k (cells w) }
    ensures { Carries b k j w result }
{
    let mut g = w;
    for i in j..k {
        let l = i + 1;
        let d = cell(g, l);
        g ^= placed(d, l);
        if d + 1 < b {
            return g | placed(d + 1, l);
        }
    }
    g
}

// The digits above j.
fn cleared(w: u64, j: u64) -> u64
    requires { j < most }
    ensures { Cleared j w result }
{
    (w >> (8 * j)) << (8 * j)
}

// The first number after the block of b^j that w's is in.
fn bump(w: u64, j: u64, k: u64, b: u64) -> u64
    requires { (j ≤ k) × (j < most) × (k ≤ most) × (b ≤ 256) × InBase b k (cells w) }
    ensures { Bumps b k j w result }
{
    carry(cleared(w, j), j, k, b)
}

// The k lowest digits of x in base b.
fn unpacked(x: u64, k: u64, b: u64) -> u64
    requires { (k ≤ most) × (1 ≤ b) × (b ≤ 256) }
    ensures { Unpacks b k x result }
{
    let mut r: u64 = 0;
    let mut left = x;
    for i in 0..k {
        r |= placed(left % b, i + 1);
        left /= b;
    }
    r
}

impl Candidate {
    // Candidate i.
    pub fn at(v: u64, n: u64, i: u64) -> Self
        requires { (v ≤ most) × (n ≤ most) }
        ensures { WithinBounds result × (result.vars ≡ v) × (result.locs ≡ n) × (i < total_of v n → number result ≡ i) }
    {
        Candidate {
            heap: unpacked(i, n, n + 2),
            stack: unpacked(i / power(n + 2, n), v, n + 1),
            vars: v,
            locs: n,
        }
    }

    // The next one, carrying upward from the heap to the stack; the last goes to the first.
    pub fn next(self) -> Self
        requires { WithinBounds self }
        ensures { Next self result }
    {
        self.pass(0)
    }

    // The first candidate after those that share the stack and the locations above j.
    pub fn pass(self, j: u64) -> Self
        requires { WithinBounds self × (j ≤ self.locs) × (j < most) }
        ensures { Passes (weight self.locs j) self result }
    {
        let n = self.locs;
        let mut next = self;
        next.heap = bump(self.heap, j, n, n + 2);
        if next.heap == 0 {
            next.stack = bump(self.stack, 0, self.vars, n + 1);
        }
        next
    }

    // The first candidate after those that share the variables above x.
    pub fn pass_stack(self, x: u64) -> Self
        requires { WithinBounds self × (x ≤ self.vars) × (x < most) }
        ensures { Passes (weight self.locs (self.locs + x)) self result }
    {
        let n = self.locs;
        let v = self.vars;
        Candidate {
            heap: 0,
            stack: bump(self.stack, x, v, n + 1),
            vars: v,
            locs: n,
        }
    }

    // The model's bytes, to the front of the output.
    pub fn write(self, out: &mut [u8])
        requires { WithinBounds self × (self.vars + self.locs ≤ length out.old) }
        ensures { out.new ≡ model_bytes self.vars self.locs (cells self.stack) (cells self.heap) ++ drop (self.vars + self.locs) out.old }
    {
        let v = self.vars as usize;
        put(out, self.stack, self.vars, 0);
        put(&mut out[v..], self.heap, self.locs, 255);
    }
}

// The digits for 1 to k, each with x added, as bytes: with 255, digit 0 gives 255 and d > 0 gives d - 1.
fn put(out: &mut [u8], w: u64, k: u64, x: u64)
    requires { (k ≤ most) × (k ≤ length out.old) × (x < 256) }
    ensures { out.new ≡ bytes_to k (plus x (cells w)) ++ drop k out.old }
{
    for i in 0..k {
        out[i as usize] = ((cell(w, i + 1) + x) % 256) as u8;
    }
}

fn power(b: u64, k: u64) -> u64
    requires { (b ≤ 10) × (k ≤ most) }
    ensures { (result ≡ b ^ k) × (result ≤ 10 ^ most) }
{
    b.pow(k as u32)
}

// How many candidates there are.
pub fn total(v: u64, n: u64) -> u64
    requires { (v ≤ most) × (n ≤ most) }
    ensures { result ≡ total_of v n }
{
    power(n + 1, v) * power(n + 2, n)
}

// How many candidates share all digits but the j lowest.
fn weight_of(n: u64, j: u64) -> u64
    requires { (n ≤ most) × (j ≤ n + most) }
    ensures { (result ≡ weight n j) × (1 ≤ result) × (result ≤ 10 ^ most * 10 ^ most) }
{
    if j < n {
        power(n + 2, j)
    } else {
        power(n + 2, n) * power(n + 1, j - n)
    }
}

// The number of the first candidate after the block of candidate i that has the j lowest digits free.
pub fn number_after(n: u64, i: u64, j: u64) -> u64
    requires { (n ≤ most) × (j ≤ n + most) × (i ≤ 10 ^ most * 10 ^ most) }
    ensures { result ≡ after (weight n j) i }
{
    if j == 0 {
        return i + 1;
    }
    let w = weight_of(n, j);
    (i / w + 1) * w
}
