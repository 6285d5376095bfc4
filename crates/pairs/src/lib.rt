// The fixed tables of the trial of parts: where the stretch of each set begins, and then every pair of a set and a part of it,
// by set and then by part. A pair is 256 * set + part. specs/PairLaws.antt proves a table's rule from one test of the whole table.
#![tactic(auto)]

mod table;

ghost use Rattle.std.specs.Prelude.{◌≡◌, ℕ, ◌<◌, length};
ghost use Rattle.pairs.specs.Pairs.{sets, Lists, part_at, Inside};

// A pair's part is its remainder by this.
const PARTS: u16 = 256;

// As many locations as the short table is for.
pub const FEW: u64 = 6;

// The table for six locations or fewer: a place for each of 64 sets and for each of their 729 pairs.
pub fn few() -> &'static [u16]
    ensures { Lists 6 result.now × (length result.now ≡ 793) }
{
    &table::PAIRS
}

// Where the stretch of the set a begins.
pub fn begin(t: &[u16], a: u64) -> usize
    requires { (l : ℕ) × Lists l t.now × (a < sets l) }
    ensures { Inside t.now result a × (part_at t.now result ≡ 0) }
{
    usize::from(t[a as usize])
}

// The part at place i.
pub fn part_at(t: &[u16], i: usize) -> u64
    requires { i < length t.now }
    ensures { result ≡ part_at t.now i }
{
    u64::from(t[i] % PARTS)
}
