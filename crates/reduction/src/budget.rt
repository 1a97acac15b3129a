// How many steps may be taken, and how many were.
ghost use Rattle.std.specs.Prelude.{◌≤◌};

// The steps taken before, and the most that may be taken in all.
#[derive(Clone, Copy, Debug, PartialEq, Eq)]
pub struct Budget {
    pub taken: u64,
    pub most: u64,
    pub ghost within: { taken ≤ most },
}
