// What a page means. The definitions stand in specs/, the theorems about them in proofs/; there is nothing to run
// but the width of a set, by which the rooms above agree.
#![tactic(auto)]

ghost use Rattle.std.specs.Prelude.{◌≡◌};
ghost use Rattle.lpod.specs.Rule.{most_atoms};

// How many atoms a set can have.
pub fn most_atoms() -> u8
    ensures { result ≡ most_atoms }
{
    16
}
