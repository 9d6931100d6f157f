// The blocks that a search goes through.
ghost use Rattle.std.specs.Prelude.{ℕ, ◌≤◌, ◌<◌, T};
ghost use Rattle.atoms.specs.Atoms.{inside};

// The least block above b that lies between low and high; 1,024, which is no block, where there is none. That is a number and no `Option`:
// a loop over blocks tests it against the words that it has anyway, and an `Option` would be a second test. With ones in all places that are not free,
// a carry goes from one free place to the next.
pub fn next_block(b: u16, low: u16, high: u16) -> u16
    requires { (b < 1024) × T (inside low b) × T (inside b high) }
    ensures { (b < result) × (result ≤ 1024) × ((c : ℕ) → b < c → c < result → T (inside low c) → T (inside c high) → ⊥) × (result < 1024 → T (inside low result) × T (inside result high)) }
{
    let shut = low | (1023 - (high & 1023));
    let x = (b | shut) + 1;
    if 1023 < x {
        return 1024;
    }
    (x & high) | low
}
