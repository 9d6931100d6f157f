// Three tests of one set, each by a road of its own: by the reduct, by here-and-there, by split programs. Every test takes every page, flag
// word and set; a bad one is refused for the first condition that holds.
#![tactic(auto)]

ghost use Rattle.std.specs.Prelude.{◌≡◌};
ghost use Rattle.std.specs.List.{find};
ghost use Rattle.atoms.specs.Atoms.{has};
ghost use Rattle.words.specs.Coded.{rule_in};

use words::row;

pub mod here_there;
pub mod reduct;
pub mod split;

// The head's first atom that is in the set, if one is.
fn first_in_head(row: u64, set: u16) -> Option<u8>
    ensures { result ≡ find (has set) (rule_in row).head }
{
    row::head_place(row, set)
        .checked_sub(1)
        .map(|k| row::head_atom(row, k))
}
