// Which sets of a block are preferred to one set, and to which of them it is: in all lanes at once. The degrees of the one set are given, row by row.
// Only rows with two head atoms or more rank sets that satisfy every row. An index of the rows that have degree 1 tells blocks apart without a look
// at their lanes.
ghost use Rattle.std.specs.Prelude.{◌≡◌, ◌&&◌, [], ◌∷◌, ◌++◌, ℕ, ◌+◌, ◌*◌, ◌≤◌, ◌<◌, T, eqb, ltb, length, get_or, take};
ghost use Rattle.atoms.specs.Atoms.{has};
ghost use Rattle.lpod.specs.Lists.{keep};
ghost use Rattle.lpod.specs.Degree.{degree};
ghost use Rattle.lpod.specs.Preferred.{within, longest};
ghost use Rattle.words.specs.Coded.{rule_in, rules_in};
ghost use Rattle.lanes.specs.Lanes.{Says, LowBody, LowBodies};
ghost use Rattle.lanes.specs.Rank.{over, Grades, ranks};

use crate::rules::Rules;
use crate::word::{self, Block};
use words::row;

// No degree is above the longest head.
pub fn deepest(rows: &[u64]) -> u8
    ensures { result ≡ longest (rules_in rows.now) }
{
    let mut most: u8 = 1;
    for &word in rows {
        most = most.max(row::head_count(word));
    }
    most
}

// The degrees of a set, row by row, at the start of the lent slice.
pub fn grade(rows: &[u64], set: u16, grades: &mut [u8])
    requires { length rows.now ≤ length grades.old }
    ensures { Grades rows.now grades.new set × (length grades.new ≡ length grades.old) }
{
    for (n, &word) in rows.iter().enumerate() {
        grades[n] = row::degree(word, set);
    }
}

// The rows of degree 1, as a word: bit i is row i.
pub fn first_rows(grades: &[u8], n: usize) -> u32
    requires { (n ≤ 32) × (n ≤ length grades.now) }
    ensures { (i : ℕ) → has result i ≡ (ltb i n && eqb (get_or grades.now i 0) 1) }
{
    let mut x: u32 = 0;
    for i in 0..n {
        if grades[i] == 1 {
            x |= 1 << i;
        }
    }
    x
}

// Rows that are kept, at most 32, and row by row the low parts of their bodies. One count serves both arrays.
#[derive(Clone, Copy)]
pub struct Kept {
    rows: [u64; 32],
    lows: [u64; 32],
    count: usize,
    ghost few: { count ≤ 32 },
    ghost bodies: { LowBodies (take count rows) lows },
}

impl Kept {
    // No row.
    pub fn none() -> Kept
        ensures { result.count ≡ 0 }
    {
        Kept {
            rows: [0; 32],
            lows: [0; 32],
            count: 0,
        }
    }

    // One row more.
    fn push(&mut self, word: u64, low: u64)
        requires { (self.old.count < 32) × LowBody word low }
        ensures { (self.new.count ≡ self.old.count + 1) × (take self.new.count self.new.rows ≡ take self.old.count self.old.rows ++ (word ∷ [])) }
    {
        self.rows[self.count] = word;
        self.lows[self.count] = low;
        self.count += 1;
    }

    // Keeps those of the rows that have two head atoms or more, where none is kept.
    pub fn add_ranking(&mut self, rules: Rules)
        requires { (length rules.rows.now ≤ 32) × (self.old.count ≡ 0) }
        ensures { take self.new.count self.new.rows ≡ keep ranks rules.entry.rows.now }
    {
        for (n, &word) in rules.rows.iter().enumerate() {
            if 1 < row::head_count(word) {
                self.push(word, rules.lows[n]);
            }
        }
    }

    // The rows that are kept, as the tests in lanes take them.
    pub fn rules(&self) -> Rules<'_>
        ensures { (result.rows.now ≡ take self.now.count self.now.rows) × (length result.rows.now ≤ 32) }
    {
        Rules {
            rows: &self.rows[..self.count],
            lows: &self.lows,
        }
    }
}

// The lanes in which the row has this degree, from 1 on.
fn exact(word: u64, low: u64, block: Block<'_>, k: u8) -> u64
    requires { LowBody word low × (1 ≤ k) }
    ensures { Says block.entry.number result (λ s. eqb (degree s (rule_in word)) k) }
{
    let x = block.body(word, low);
    let n = row::head_count(word);
    let mut d = (word / 1099511627776) as u32;
    if k == 1 {
        if n == 0 {
            return !x;
        }
        return !x | word::at(block.words, d % 16);
    }
    if n < k {
        return 0;
    }
    let mut t = x;
    for _p in 1..k {
        t &= !word::at(block.words, d % 16);
        d /= 16;
    }
    t & word::at(block.words, d % 16)
}

// At one degree: the lanes whose rows of this degree hold those of the set that is graded, and the lanes whose rows of it are among those.
#[derive(Clone, Copy)]
struct Level {
    up: u64,
    down: u64,
}

// A row of this degree in the set that is graded counts for the first word only, any other for the second only.
fn at_degree(rules: Rules, grades: &[u8], block: Block<'_>, k: u8) -> Level
    requires { (length rules.rows.now ≤ length grades.now) × (1 ≤ k) }
    ensures { (M : ℕ) → Grades rules.entry.rows.now grades.now M → Says block.entry.number result.up (λ s. within (rules_in rules.entry.rows.now) k s M) × Says block.entry.number result.down (λ s. within (rules_in rules.entry.rows.now) k M s) }
{
    let mut up = u64::MAX;
    let mut down = u64::MAX;
    for (n, &word) in rules.rows.iter().enumerate() {
        let e = exact(word, rules.lows[n], block, k);
        if grades[n] == k {
            up &= e;
        } else {
            down &= !e;
        }
    }
    Level { up, down }
}

// Of the lanes of `among`, those that are preferred to the set that is graded, and those to which it is.
#[derive(Clone, Copy)]
pub struct Compared {
    pub won: u64,
    pub lost: u64,
}

// Degree after degree, among the lanes in which all is equal so far.
pub fn compare(rules: Rules, grades: &[u8], deepest: u8, b: u16, among: u64) -> Compared
    requires { (b < 1024) × (length rules.rows.now ≤ length grades.now) × (deepest ≡ longest (rules_in rules.rows.now)) }
    ensures { (M : ℕ) → Grades rules.entry.rows.now grades.now M → (j : ℕ) → j < 64 → (has result.won j ≡ (has among j && over rules.entry.rows.now (64 * b + j) M)) × (has result.lost j ≡ (has among j && over rules.entry.rows.now M (64 * b + j))) }
{
    let words = word::block_words(b);
    let block = Block {
        number: b,
        words: &words,
    };
    let mut won: u64 = 0;
    let mut lost: u64 = 0;
    let mut same = among;
    for k in 1..=deepest {
        let l = at_degree(rules, grades, block, k);
        let up = same & l.up;
        let down = same & l.down;
        won |= up & !down;
        lost |= down & !up;
        same = up & down;
        if same == 0 {
            return Compared { won, lost };
        }
    }
    Compared { won, lost }
}

// The index word of a block: bit n where some lane of `among` has degree 1 in row n. Most blocks have no lane that counts.
pub fn firsts(rules: Rules, b: u16, among: u64) -> u32
    requires { (b < 1024) × (length rules.rows.now ≤ 32) }
    ensures { (n j : ℕ) → n < length rules.entry.rows.now → j < 64 → T (has among j) → degree (64 * b + j) (rule_in (get_or rules.entry.rows.now n 0)) ≡ 1 → T (has result n) }
{
    if among == 0 {
        return 0;
    }
    let words = word::block_words(b);
    let block = Block {
        number: b,
        words: &words,
    };
    let mut x: u32 = 0;
    for (n, &word) in rules.rows.iter().enumerate() {
        if exact(word, rules.lows[n], block, 1) & among != 0 {
            x |= 1 << n;
        }
    }
    x
}
