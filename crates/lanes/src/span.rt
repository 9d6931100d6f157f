// The blocks that a search goes through: those that lie between two others.
ghost use Rattle.std.specs.Prelude.{ℕ, ◌≤◌, ◌<◌, T};
ghost use Rattle.atoms.specs.Atoms.{inside};

use crate::blocks;

// The blocks between low and high.
#[derive(Clone, Copy)]
pub struct Span {
    pub low: u16,
    pub high: u16,
    pub ghost order: { T (inside low high) },
}

impl Span {
    // The least of these blocks above b; 1,024, which is no block, where there is none.
    pub fn next(self, b: u16) -> u16
        requires { (b < 1024) × T (inside self.low b) × T (inside b self.high) }
        ensures { (b < result) × (result ≤ 1024) × ((c : ℕ) → b < c → c < result → T (inside self.low c) → T (inside c self.high) → ⊥) × (result < 1024 → T (inside self.low result) × T (inside result self.high)) }
    {
        blocks::next_block(b, self.low, self.high)
    }
}
