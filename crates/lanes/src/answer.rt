// The answer sets of a block. In each lane the passes go from the raised atoms until they come to the lane's set, or can come no further.
ghost use Rattle.std.specs.Prelude.{◌≡◌, ◌&&◌, ℕ, ◌+◌, ◌*◌, ◌≤◌, ◌<◌, T, eqb, length};
ghost use Rattle.atoms.specs.Atoms.{has, inside};
ghost use Rattle.lpod.specs.Satisfied.{satisfies_all, no_pair};
ghost use Rattle.lpod.specs.Reduct.{reduct};
ghost use Rattle.lpod.specs.Least.{least};
ghost use Rattle.lpod.specs.Answer.{answer};
ghost use Rattle.words.specs.Coded.{rules_in, pair_in, pairs_in, rules_with, program_in};
ghost use Rattle.lanes.specs.Lanes as means;

use super::rules::Rules;
use super::word::{Block, First};
use super::{close, word};

// The lanes in which the two have the same set.
fn same(v: &[u64; 16], w: &[u64; 16]) -> u64
    ensures { (j : ℕ) → j < 64 → has result j ≡ eqb (means.column v.now j) (means.column w.now j) }
{
    let mut acc = u64::MAX;
    for k in 0..16 {
        acc &= !(word::at(v, k) ^ word::at(w, k));
    }
    acc
}

// The flags in every lane.
fn flag_words(flags: u16) -> [u64; 16]
    ensures { (j : ℕ) → j < 64 → means.column result j ≡ flags }
{
    let mut w = [0u64; 16];
    word::raise(flags, &mut w);
    w
}

// The lanes whose set holds atom a: none where a is 16 or more.
fn held(w: &[u64; 16], a: u32) -> u64
    ensures { (j : ℕ) → j < 64 → has result j ≡ has (means.column w.now j) a }
{
    if a < 16 {
        return word::at(w, a);
    }
    0
}

// The lanes whose set holds both atoms of the pair.
fn pair_held(pair: u16, w: &[u64; 16]) -> u64
    ensures { (j : ℕ) → j < 64 → has result j ≡ (has (means.column w.now j) (pair_in pair).one && has (means.column w.now j) (pair_in pair).other) }
{
    held(w, (pair % 256) as u32) & held(w, (pair / 256) as u32)
}

// The lanes of x whose set holds no pair.
fn no_pair(pairs: &[u16], w: &[u64; 16], x: u64) -> u64
    ensures { (j : ℕ) → j < 64 → has result j ≡ (has x j && no_pair (pairs_in pairs.now) (means.column w.now j)) }
{
    let mut ok = x;
    for &pair in pairs {
        ok &= !pair_held(pair, w);
    }
    ok
}

// The lanes of x whose set satisfies every row and is the least set closed under its reduct. A lane is done where its set is reached. Where it is
// not, nothing more can come once no row waits there, or a pass has added nothing there.
fn supported(rules: Rules<'_>, flags: u16, block: Block<'_>, x: u64) -> u64
    requires { (j : ℕ) → j < 64 → T (has x j) → T (inside flags (64 * block.number + j)) }
    ensures { (j : ℕ) → j < 64 → has result j ≡ (has x j && (satisfies_all (64 * block.entry.number + j) (rules_in rules.entry.rows.now) && eqb (least (reduct (rules_with rules.entry.rows.now flags) (64 * block.entry.number + j))) (64 * block.entry.number + j))) }
{
    let mut ok = x;
    let mut cur = flag_words(flags);
    for _ in 0..16u8 {
        let p = close::pass(rules, block, &mut cur);
        ok &= p.ok;
        if ok == 0 {
            return 0;
        }
        let there = same(&cur, block.words);
        let open = ok & !there;
        if open & p.wait & p.grew == 0 {
            return ok & there;
        }
    }
    ok & same(&cur, block.words)
}

// The lanes of x whose set is an answer set.
pub fn answers(rules: Rules<'_>, first: &First, pairs: &[u16], flags: u16, b: u16, x: u64) -> u64
    requires { (b < 1024) × ((j : ℕ) → j < 64 → T (has x j) → T (inside flags (64 * b + j))) }
    ensures { (j : ℕ) → j < 64 → has result j ≡ (has x j && answer (program_in rules.entry.rows.now pairs.now flags) (64 * b + j)) }
{
    let mut words = first.words;
    word::to_block(b, &mut words);
    let block = Block {
        number: b,
        words: &words,
    };
    let ok = no_pair(pairs, block.words, x);
    if ok == 0 {
        return 0;
    }
    supported(rules, flags, block, ok)
}
