// The marked sets, block by block: only blocks between low and high have marks, and a word with no bit is passed over at once. A search among them
// answers the least set that it looks for. No more than 1,024 words are lent.
ghost use Rattle.std.specs.Prelude.{◌≡◌, ◌+◌, ◌*◌, ◌/◌, ◌≤◌, ◌<◌, T, length};
ghost use Rattle.std.proofs.lemmas.List.Edits.{sets};
ghost use Rattle.atoms.specs.Atoms.{inside};
ghost use Rattle.lpod.specs.Lists.{numbers};
ghost use Rattle.lanes.specs.Seek.{number_of, next_from, all_from};
ghost use Rattle.lanes.specs.Marks.{marked, Within, BlockFits, BlockStored};
ghost use Rattle.lanes.specs.Entries.{over};

use crate::span::Span;

// A word of marks for each block, and the blocks that may have some.
#[derive(Clone, Copy)]
pub struct Marks<'a> {
    pub words: &'a [u64],
    pub span: Span,
    pub ghost few: { length words.now ≤ 1024 },
    pub ghost start: { span.low < length words.now },
    pub ghost between: { Within words.now span.low span.high },
}

impl<'a> Marks<'a> {
    // The least marked set of block b and the blocks after it.
    fn from_block(self, b: u16) -> Option<u16>
        requires { (b ≤ 1024) × (b < 1024 → T (inside self.span.low b) × T (inside b self.span.high)) }
        ensures { number_of result ≡ next_from (marked self.entry.words.now) (64 * b) }
    {
        let words = self.words;
        let mut c = b;
        while (c as usize) < words.len() {
            let x = words[c as usize];
            if x != 0 {
                return Some(64 * c + x.trailing_zeros() as u16);
            }
            c = self.span.next(c);
        }
        None
    }

    // The least marked set.
    pub fn first(self) -> Option<u16>
        ensures { number_of result ≡ next_from (marked self.entry.words.now) 0 }
    {
        self.from_block(self.span.low)
    }

    // The least marked set above m. First the rest of m's own word: the bits up to m are shifted out.
    pub fn next_after(self, m: u16) -> Option<u16>
        requires { (m / 64 < length self.words.now) × T (inside self.span.low (m / 64)) × T (inside (m / 64) self.span.high) }
        ensures { number_of result ≡ next_from (marked self.entry.words.now) (m + 1) }
    {
        let words = self.words;
        let b = m / 64;
        let x = (words[b as usize] >> (m % 64)) >> 1;
        if x != 0 {
            return Some(m + 1 + x.trailing_zeros() as u16);
        }
        self.from_block(self.span.next(b))
    }

    // How many sets are marked.
    pub fn count(self) -> u32
        ensures { result ≡ length (all_from (marked self.entry.words.now) 0) }
    {
        let words = self.words;
        let mut n = 0;
        let mut b = self.span.low;
        while (b as usize) < words.len() {
            n += words[b as usize].count_ones();
            b = self.span.next(b);
        }
        n
    }

    // Stores the marked sets, rising, at the start of a slice that has room for all.
    pub fn store(self, out: &mut [u16])
        requires { length (all_from (marked self.words.now) 0) ≤ length out.old }
        ensures { out.new ≡ over (all_from (marked self.entry.words.now) 0) out.old }
    {
        let mut k: usize = 0;
        let mut b = self.span.low;
        while (b as usize) < self.words.len() {
            k = store_block(self.words, b, &mut *out, k);
            b = self.span.next(b);
        }
    }
}

// Stores many numbers from i on, one after the other from place k on. Nothing else is done in the loop, so that it can be made one of wide stores.
fn store_run(out: &mut [u16], k: usize, i: u32, many: u32)
    requires { (k + many ≤ 65536) × (k + many ≤ length out.old) × (i + many ≤ 65536) }
    ensures { out.new ≡ sets out.old k (numbers i many) }
{
    for n in 0..many {
        out[k + n as usize] = (i + n) as u16;
    }
}

// Stores the marked sets of block b from place k on, run by run; the place after them. What is left of the word is kept shifted down: its lowest
// bit is the set s.
fn store_runs(marks: &[u64], b: u16, out: &mut [u16], k: usize) -> usize
    requires { BlockFits marks.now b k out.old }
    ensures { BlockStored marks.now b k out.old result out.new }
{
    let mut x = marks[b as usize];
    let mut s = 64 * (b as u32);
    let mut at = k;
    while x != 0 {
        let gap = x.trailing_zeros();
        let y = x >> gap;
        let many = (!y).trailing_zeros();
        s += gap;
        store_run(&mut *out, at, s, many);
        at += many as usize;
        s += many;
        x = (y >> (many - 1)) >> 1;
    }
    at
}

// The same set by set. It is not one loop with the one above: the test that tells them apart is made once for a block and not for each run.
fn store_each(marks: &[u64], b: u16, out: &mut [u16], k: usize) -> usize
    requires { BlockFits marks.now b k out.old }
    ensures { BlockStored marks.now b k out.old result out.new }
{
    let mut x = marks[b as usize];
    let mut s = 64 * (b as u32);
    let mut at = k;
    while x != 0 {
        let gap = x.trailing_zeros();
        s += gap;
        out[at] = s as u16;
        at += 1;
        s += 1;
        x = (x >> gap) >> 1;
    }
    at
}

// The same in the way that has less work: a run of four or more is worth wide stores.
fn store_block(marks: &[u64], b: u16, out: &mut [u16], k: usize) -> usize
    requires { BlockFits marks.now b k out.old }
    ensures { BlockStored marks.now b k out.old result out.new }
{
    let x = marks[b as usize];
    let y = x & (x >> 1);
    if y & (y >> 2) == 0 {
        return store_each(marks, b, &mut *out, k);
    }
    store_runs(marks, b, &mut *out, k)
}
