// The best of the marked sets, found in place. A set to which another is preferred may lose its mark at once, for whatever it beats is beaten by a
// best set too. So where two sets are compared the worse one may go, whichever it is, and the marks get fewer while they are searched. A set that is
// not best leads up to a champion, and what the champion beats goes, from the block of the set in hand on. Where a row has degree 1 in the set in
// hand and in no marked set of a block, none of that block is preferred to it: an index of such rows spares most looks at a block.
ghost use Rattle.std.specs.Prelude.{◌≡◌, ◌&&◌, not, ℕ, ◌+◌, ◌*◌, ◌/◌, ◌^◌, ◌≤◌, ◌<◌, T, eqb, length};
ghost use Rattle.atoms.specs.Atoms.{has, inside};
ghost use Rattle.lanes.specs.Lanes.{Says};
ghost use Rattle.lanes.specs.Seek.{number_of, next_from};
ghost use Rattle.lanes.specs.Marks.{marked, Within};
ghost use Rattle.lanes.specs.Rank.{Grades};
ghost use Rattle.lanes.specs.Search.{sought_best};
ghost use Rattle.lanes.specs.Left.{Index, Searched, Left, Cleared, rival, beats};

use crate::marks::Marks;
use crate::rank;
use crate::ranking::Ranking;
use crate::rules::Rules;

// The index of the marked sets: a word for each block that may have some. Where there is one block only it spares nothing, and all ones will do.
fn indexes(rules: Rules, marks: Marks, index: &mut [u32])
    requires { (length rules.rows.now ≤ 32) × (length marks.words.now ≤ length index.old) }
    ensures { Index rules.entry.rows.now index.new marks.entry.words.now × (length index.new ≡ length index.old) }
{
    let words = marks.words;
    if words.len() == 1 {
        index[0] = u32::MAX;
        return;
    }
    let mut b = marks.span.low;
    while (b as usize) < words.len() {
        index[b as usize] = rank::firsts(rules, b, words[b as usize]);
        b = marks.span.next(b);
    }
}

// The lanes of `among`, in block b, but m's own. No set is preferred to itself, and with no equal lane left a ranking ends early.
fn others(among: u64, b: u16, m: u16) -> u64
    ensures { (j : ℕ) → j < 64 → has result j ≡ (has among j && not (eqb (64 * b + j) m)) }
{
    if m / 64 != b {
        return among;
    }
    among & !(1u64 << (m % 64))
}

// The word of rows of degree 1 has all n rows: nothing is preferred to such a set.
fn all_first(first: u32, n: usize) -> bool
    requires { n ≤ 32 }
    ensures { result ≡ eqb (first + 1) (2 ^ n) }
{
    first as u64 + 1 == 1u64 << n
}

// s loses its mark.
fn unmark(marks: &mut [u64], s: u16)
    requires { s / 64 < length marks.old }
    ensures { (length marks.new ≡ length marks.old) × ((x : ℕ) → marked marks.new x ≡ (marked marks.old x && not (eqb x s))) }
{
    let b = s / 64;
    marks[b as usize] = others(marks[b as usize], b, s);
}

impl<'a> Ranking<'a> {
    // The rules rank the marked sets. The index is left in the lent slice.
    pub fn new(rules: Rules<'a>, marks: Marks, index: &'a mut [u32]) -> Ranking<'a>
        requires { (length rules.rows.now ≤ 32) × (length marks.words.now ≤ length index.old) }
        ensures { Searched result marks.entry.words.now × (result.rules ≡ rules.entry) × (result.span ≡ marks.entry.span) }
    {
        indexes(rules, marks, &mut *index);
        Ranking {
            rules,
            deepest: rank::deepest(rules.rows),
            span: marks.span,
            index,
        }
    }

    // The lanes of block b that are marked and preferred to m, the set that is graded. Those to which m is preferred lose their marks.
    fn meet(&self, grades: &[u8], marks: &mut [u64], m: u16, b: u16) -> u64
        requires { (length self.now.rules.rows.now ≤ length grades.now) × Grades self.now.rules.rows.now grades.now m × (b < 1024) × (b < length marks.old) }
        ensures { Says b result (rival (beats self.now) marks.old m) × Cleared (beats self.now) m marks.old marks.new }
    {
        let among = marks[b as usize];
        let rest = others(among, b, m);
        if rest == 0 {
            return 0;
        }
        let r = rank::compare(self.rules, grades, self.deepest, b, rest);
        marks[b as usize] = among & !r.lost;
        r.won
    }

    // The least marked set from block b on that is preferred to m. Sets that m meets on the way and is preferred to lose their marks. A block whose
    // index lacks a row of degree 1 is passed over; to a set with degree 1 in every row nothing is preferred.
    fn rival_from(&self, marks: &mut [u64], m: u16, b: u16) -> Option<u16>
        requires { Searched self.now marks.old × T (inside self.now.span.low b) × T (inside b self.now.span.high) × (b < 1024) }
        ensures { (number_of result ≡ next_from (rival (beats self.now) marks.old m) (64 * b)) × Cleared (beats self.now) m marks.old marks.new }
    {
        let mut grades = [0u8; 32];
        rank::grade(self.rules.rows, m, &mut grades);
        let first = rank::first_rows(&grades, self.rules.rows.len());
        if all_first(first, self.rules.rows.len()) {
            return None;
        }
        // What each turn asks of the ranking is read once, before the loop.
        let index = self.index;
        let span = self.span;
        let mut c = b;
        while (c as usize) < marks.len() {
            if first & index[c as usize] == first {
                let x = self.meet(&grades, &mut *marks, m, c);
                if x != 0 {
                    return Some(64 * c + x.trailing_zeros() as u16);
                }
            }
            c = span.next(c);
        }
        None
    }

    // From block b on, the sets to which m is preferred lose their marks.
    fn clear_worse(&self, marks: &mut [u64], m: u16, b: u16)
        requires { (length marks.old ≤ 1024) × T (inside self.now.span.low b) × T (inside b self.now.span.high) × (b < 1024) }
        ensures { Cleared (beats self.now) m marks.old marks.new }
    {
        let mut grades = [0u8; 32];
        rank::grade(self.rules.rows, m, &mut grades);
        let mut c = b;
        while (c as usize) < marks.len() {
            if marks[c as usize] != 0 {
                self.meet(&grades, &mut *marks, m, c);
            }
            c = self.span.next(c);
        }
    }

    // From the set n up: to the least one from block b on that is preferred to it, and so on from there. What the last of them beats loses its mark,
    // from block b on.
    fn climb(&self, marks: &mut [u64], n: u16, b: u16)
        requires { Searched self.now marks.old × T (inside self.now.span.low b) × T (inside b self.now.span.high) × (b < 1024) × T (marked marks.old n) }
        ensures { Left (beats self.now) marks.old marks.new }
    {
        let mut c = n;
        while let Some(k) = self.rival_from(&mut *marks, c, b) {
            c = k;
        }
        self.clear_worse(&mut *marks, c, b);
    }

    // From s, to which n is preferred, to the next marked set. s loses its mark; where a set after it is marked, those lose theirs that a champion
    // beats.
    fn pass_beaten(&self, marks: &mut [u64], s: u16, n: u16) -> Option<u16>
        requires { Searched self.now marks.old × T (marked marks.old s) × T (marked marks.old n) × T (beats self.now n s) }
        ensures { (number_of result ≡ next_from (marked marks.new) (s + 1)) × Left (beats self.now) marks.old marks.new × (T (marked marks.new s) → ⊥) }
    {
        unmark(&mut *marks, s);
        let rest = Marks {
            words: &*marks,
            span: self.span,
        };
        rest.next_after(s)?;
        self.climb(&mut *marks, n, s / 64);
        let left = Marks {
            words: &*marks,
            span: self.span,
        };
        left.next_after(s)
    }

    // From the marked set m to the least best set from there on. What is passed over on the way loses its mark.
    fn settle(&self, marks: &mut [u64], m: u16) -> Option<u16>
        requires { Searched self.now marks.old × T (marked marks.old m) }
        ensures { (number_of result ≡ next_from (sought_best (beats self.now) marks.old) m) × Left (beats self.now) marks.old marks.new × ((s : ℕ) → m ≤ s → s < number_of result → T (marked marks.new s) → ⊥) }
    {
        let mut s = m;
        while let Some(n) = self.rival_from(&mut *marks, s, self.span.low) {
            s = self.pass_beaten(&mut *marks, s, n)?;
        }
        Some(s)
    }

    // The least best set. Beaten sets may lose their marks.
    pub fn first_best(&self, marks: &mut [u64]) -> Option<u16>
        requires { Searched self.now marks.old }
        ensures { number_of result ≡ next_from (sought_best (beats self.now) marks.old) 0 }
    {
        let all = Marks {
            words: &*marks,
            span: self.span,
        };
        let m = all.first()?;
        self.settle(&mut *marks, m)
    }

    // Only the best sets keep their marks.
    pub fn keep_best(&self, marks: &mut [u64])
        requires { Searched self.now marks.old }
        ensures { (length marks.new ≡ length marks.old) × Within marks.new self.now.span.low self.now.span.high × ((s : ℕ) → s < 65536 → marked marks.new s ≡ sought_best (beats self.now) marks.old s) }
    {
        let all = Marks {
            words: &*marks,
            span: self.span,
        };
        let mut next = all.first();
        while let Some(m) = next {
            let Some(s) = self.settle(&mut *marks, m) else {
                return;
            };
            let left = Marks {
                words: &*marks,
                span: self.span,
            };
            next = left.next_after(s);
        }
    }
}
