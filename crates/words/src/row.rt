// One row in a word: what it has, and the tests of it against a set. Every function takes every word.
ghost use Rattle.std.specs.Prelude.{◌≡◌, length, get_or};
ghost use Rattle.lpod.specs.Satisfied.{all_in, some_in, body_holds, satisfies};
ghost use Rattle.lpod.specs.Degree as degrees;
ghost use Rattle.words.specs.Coded.{rule_in};

// Every atom of the positive body is in s.
pub fn pos_in(row: u64, s: u16) -> bool
    ensures { result ≡ all_in (rule_in row).pos s }
{
    atoms::part_of((row % 65536) as u16, s)
}

// Some atom of the negative body is in s.
pub fn neg_in(row: u64, s: u16) -> bool
    ensures { result ≡ some_in (rule_in row).neg s }
{
    atoms::common((row / 65536 % 65536) as u16, s) != 0
}

// How many atoms the head has.
pub fn head_count(row: u64) -> u8
    ensures { result ≡ length (rule_in row).head }
{
    (row / 4294967296 % 256) as u8
}

// The place, counted from 1, of the first head atom in s; 0 where none is. It is a number and no `Option`, since it is the row's degree in s, and
// `place` of the definitions writes the degree of a row that s misses as 0.
pub fn head_place(row: u64, s: u16) -> u8
    ensures { result ≡ degrees.place 1 (rule_in row).head s }
{
    let n = head_count(row);
    let mut h = (row / 1099511627776) as u32;
    for k in 0..n {
        if atoms::holds(s, (h % 16) as u8) {
            return k + 1;
        }
        h = h / 16;
    }
    0
}

// Some atom of the head is in s.
pub fn head_in(row: u64, s: u16) -> bool
    ensures { result ≡ some_in (rule_in row).head s }
{
    head_place(row, s) != 0
}

// The head atom at k, counted from 0; 0 past the head, as the contract's `get_or` says. Whoever asks has a place within.
#[tactic(auto, using(crate::proofs::Places::head_at, crate::proofs::Places::head_past, crate::proofs::Places::head_high))]
pub fn head_atom(row: u64, k: u8) -> u8
    ensures { result ≡ get_or (rule_in row).head k 0 }
{
    if k < head_count(row) {
        if k < 6 {
            let h = row / 1099511627776;
            return ((h >> (4 * k)) % 16) as u8;
        }
    }
    0
}

// All positive atoms are in s and no negative atom is.
pub fn body_holds(row: u64, s: u16) -> bool
    ensures { result ≡ body_holds (rule_in row) s }
{
    if pos_in(row, s) {
        return !neg_in(row, s);
    }
    false
}

// Where the body holds in s, some head atom is in s.
pub fn satisfied(row: u64, s: u16) -> bool
    ensures { result ≡ satisfies s (rule_in row) }
{
    if body_holds(row, s) {
        return head_in(row, s);
    }
    true
}

// 1 where the body does not hold, else the place of the first head atom in s.
pub fn degree(row: u64, s: u16) -> u8
    ensures { result ≡ degrees.degree s (rule_in row) }
{
    if body_holds(row, s) {
        return head_place(row, s);
    }
    1
}
