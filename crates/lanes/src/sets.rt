// The answer sets of rows and pairs in words and a flag word: all of them or the best, in lent memory, and the pick. Any words, flag word and slice
// will do.
ghost use Rattle.std.specs.Prelude.{◌≡◌, ◌/◌, ◌≤◌, ◌<◌, length};
ghost use Rattle.lpod.specs.Lists.{keep};
ghost use Rattle.lpod.specs.Best as bests;
ghost use Rattle.words.specs.Coded.{program_in};
ghost use Rattle.lanes.specs.Lanes.{LowBodies};
ghost use Rattle.lanes.specs.Seek.{number_of, next_from, all_from};
ghost use Rattle.lanes.specs.Marks.{marked, Within, Blank};
ghost use Rattle.lanes.specs.Rank.{over, ranks};
ghost use Rattle.lanes.specs.Search.{sought_best};
ghost use Rattle.lanes.specs.Sets as means;

use super::marks::Marks;
use super::program::Program;
use super::rank::Kept;
use super::ranking::Ranking;
use super::rules::Rules;
use super::span::Span;
use super::word::First;
use super::{fill, word};

// Which sets: all answer sets, or the best of them.
#[derive(Clone, Copy, Debug, PartialEq, Eq)]
pub enum Which {
    All,
    Best,
}

// Counts the marked sets, and stores them where there is room for all.
fn listed(marks: Marks, out: &mut [u16]) -> u32
    ensures { means.FoundSays (all_from (marked marks.entry.words.now) 0) out.old result out.new }
{
    let count = marks.count();
    if out.len() < count as usize {
        return count;
    }
    marks.store(&mut *out);
    count
}

// Where only the best are wanted, only the best of the marked sets keep their marks. Rows that do not rank are left out.
fn keep_wanted(rules: Rules, span: Span, which: Which, index: &mut [u32], marks: &mut [u64])
    requires { (length rules.rows.now ≤ 32) × (length marks.old ≤ 1024) × (length marks.old ≤ length index.old) × (span.low < length marks.old) × Within marks.old span.low span.high }
    ensures { (length marks.new ≡ length marks.old) × Within marks.new span.low span.high × (all_from (marked marks.new) 0 ≡ means.kept which (keep ranks rules.entry.rows.now) marks.old) }
{
    if which == Which::All {
        return;
    }
    let mut kept = Kept::none();
    kept.add_ranking(rules);
    let all = Marks {
        words: &*marks,
        span,
    };
    let ranking = Ranking::new(kept.rules(), all, &mut *index);
    ranking.keep_best(&mut *marks);
}

// The least of the best marked sets. Rows that do not rank are left out. The rows that are kept lie in this call's own memory, which no function can
// hand up, so this and `keep_wanted` begin alike.
fn first_best(rules: Rules, span: Span, index: &mut [u32], marks: &mut [u64]) -> Option<u16>
    requires { (length rules.rows.now ≤ 32) × (length marks.old ≤ 1024) × (length marks.old ≤ length index.old) × (span.low < length marks.old) × Within marks.old span.low span.high }
    ensures { number_of result ≡ next_from (sought_best (over (keep ranks rules.entry.rows.now)) marks.old) 0 }
{
    let mut kept = Kept::none();
    kept.add_ranking(rules);
    let all = Marks {
        words: &*marks,
        span,
    };
    let ranking = Ranking::new(kept.rules(), all, &mut *index);
    ranking.first_best(&mut *marks)
}

// Marks the answer sets in words that have no mark. The low parts of the bodies are left in a lent slice.
fn mark(p: Program, lows: &mut [u64], marks: &mut [u64])
    requires { (length p.rows.now ≤ length lows.old) × Blank marks.old p.top }
    ensures { means.Marked p.entry.rows.now p.entry.pairs.now p.entry.flags p.entry.top marks.new × LowBodies p.entry.rows.now lows.new × (length lows.new ≡ length lows.old) }
{
    let first = First::new();
    word::low_bodies(p.rows, &first, &mut *lows);
    let rules = Rules {
        rows: p.rows,
        lows: &*lows,
    };
    fill::answers(rules, &first, p.pairs, p.flags, p.top, &mut *marks);
}

// Marks the answer sets in words that have no mark, keeps the best where only these are wanted, and lists what is marked.
fn sets_with(p: Program, which: Which, index: &mut [u32], marks: &mut [u64], out: &mut [u16]) -> u32
    requires { (length marks.old ≤ length index.old) × Blank marks.old p.top }
    ensures { means.FoundSays (means.wanted which (program_in p.entry.rows.now p.entry.pairs.now p.entry.flags)) out.old result out.new }
{
    let mut lows = [0u64; 32];
    mark(p, &mut lows, &mut *marks);
    let rules = Rules {
        rows: p.rows,
        lows: &lows,
    };
    let span = p.span();
    keep_wanted(rules, span, which, &mut *index, &mut *marks);
    let left = Marks {
        words: &*marks,
        span,
    };
    listed(left, &mut *out)
}

// Marks the answer sets in words that have no mark, and answers the least best one.
fn pick_with(p: Program, index: &mut [u32], marks: &mut [u64]) -> Option<u16>
    requires { (length marks.old ≤ length index.old) × Blank marks.old p.top }
    ensures { means.found result ≡ bests.pick (program_in p.entry.rows.now p.entry.pairs.now p.entry.flags) }
{
    let mut lows = [0u64; 32];
    mark(p, &mut lows, &mut *marks);
    let rules = Rules {
        rows: p.rows,
        lows: &lows,
    };
    first_best(rules, p.span(), &mut *index, &mut *marks)
}

// The sets that are wanted, found in arrays of N words.
fn sets_in<const N: usize>(p: Program, which: Which, out: &mut [u16]) -> u32
    requires enough { p.top / 64 < N }
    requires bounded { N ≤ 1024 }
    ensures { means.FoundSays (means.wanted which (program_in p.entry.rows.now p.entry.pairs.now p.entry.flags)) out.old result out.new }
{
    let mut index = [0u32; N];
    let mut marks = [0u64; N];
    let lent = &mut marks[..p.words()];
    sets_with(p, which, &mut index, lent, &mut *out)
}

// The pick, found in arrays of N words.
fn pick_in<const N: usize>(p: Program) -> Option<u16>
    requires enough { p.top / 64 < N }
    requires bounded { N ≤ 1024 }
    ensures { means.found result ≡ bests.pick (program_in p.entry.rows.now p.entry.pairs.now p.entry.flags) }
{
    let mut index = [0u32; N];
    let mut marks = [0u64; N];
    let lent = &mut marks[..p.words()];
    pick_with(p, &mut index, lent)
}

// How many sets there are: all answer sets, or the best of them. Where the lent slice has room for all they stand at its start, rising; else it is
// left as it was. Of more than 32 rows the first 32 count. A small page needs few words: no more than four for eight atoms.
pub fn sets(rows: &[u64], pairs: &[u16], flags: u16, which: Which, out: &mut [u16]) -> u32
    ensures { means.FoundSays (means.wanted which (means.program_of rows.now pairs.now flags)) out.old result out.new }
{
    let p = Program::new(rows, pairs, flags);
    if p.words() <= 4 {
        return sets_in::<4>(p, which, &mut *out);
    }
    sets_in::<1024>(p, which, &mut *out)
}

// The lowest-numbered best set, if there is an answer set. Of more than 32 rows the first 32 count.
pub fn pick(rows: &[u64], pairs: &[u16], flags: u16) -> Option<u16>
    ensures { means.found result ≡ bests.pick (means.program_of rows.now pairs.now flags) }
{
    let p = Program::new(rows, pairs, flags);
    if p.words() <= 4 {
        return pick_in::<4>(p);
    }
    pick_in::<1024>(p)
}
