// The atoms that stand in a head: with the flags they are all that an answer set can hold.
ghost use Rattle.std.specs.Prelude.{◌≡◌};
ghost use Rattle.atoms.specs.Atoms.{union};
ghost use Rattle.words.specs.Coded.{rule_in, rules_in, atoms_of};
ghost use Rattle.lanes.specs.Tried.{top_of};

use words::row;

// s and the head atoms of one row.
fn with_head(word: u64, s: u16) -> u16
    ensures { result ≡ union s (atoms_of (rule_in word).head) }
{
    // A fold over the places is not proved: a range says nothing of its items to one.
    let mut t = s;
    for k in 0..row::head_count(word) {
        t = atoms::with_atom(t, row::head_atom(word, k));
    }
    t
}

// The flags with all head atoms: every answer set is a part of this.
pub fn top_of(rows: &[u64], flags: u16) -> u16
    ensures { result ≡ top_of (rules_in rows.now) flags }
{
    rows.iter().fold(flags, |s, &row| with_head(row, s))
}
