// A line by value, as far as it is built.
ghost use Rattle.std.specs.Prelude.{◌≤◌};

// The most bytes of a line. The longest that is printed has 24.
pub const MOST_LINE: usize = 32;

// A line so far: its first bytes.
#[derive(Clone, Copy)]
pub struct Line {
    pub bytes: [u8; MOST_LINE],
    pub len: usize,
    ghost within: { len ≤ 32 },
}
