// What is known of the heaps on which a node holds, at one location.
ghost use Rattle.std.specs.Prelude.{◌^◌, ◌<◌, ◌≤◌};

// Bit d of digits is set if digit d may stand; cap and need are the bounds of specs/Facts.antt in crate skips. They fit in an
// entry of the table that crate rootfacts fills.
#[derive(Clone, Copy)]
pub struct Fact {
    pub digits: u64,
    pub cap: u64,
    pub need: u64,
    pub ghost digits_fit: { digits < 2 ^ 16 },
    pub ghost cap_fits: { cap ≤ 255 },
    pub ghost need_fits: { need ≤ 255 },
}
