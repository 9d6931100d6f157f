// All rows and all pairs, in words, against a set.
ghost use Rattle.std.specs.Prelude.{◌≡◌, ◌&&◌};
ghost use Rattle.atoms.specs.Atoms.{has};
ghost use Rattle.lpod.specs.Satisfied.{satisfies_all, no_pair};
ghost use Rattle.words.specs.Coded.{pair_in, rules_in, pairs_in};

use super::row;

// Both atoms of a pair are in s.
fn pair_in(pair: u16, s: u16) -> bool
    ensures { result ≡ (has s (pair_in pair).one && has s (pair_in pair).other) }
{
    atoms::holds(s, (pair % 256) as u8) && atoms::holds(s, (pair / 256) as u8)
}

// s holds both atoms of no pair.
pub fn no_pair(pairs: &[u16], s: u16) -> bool
    ensures { result ≡ no_pair (pairs_in pairs.now) s }
{
    !pairs.iter().any(|&pair| pair_in(pair, s))
}

// s satisfies every row.
pub fn rows_satisfied(rows: &[u64], s: u16) -> bool
    ensures { result ≡ satisfies_all s (rules_in rows.now) }
{
    rows.iter().all(|&row| row::satisfied(row, s))
}
