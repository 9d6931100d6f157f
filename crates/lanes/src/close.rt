// One pass of the rows over 64 sets: they fire one after the other, each on what the rows before it made, and the same pass says in which lanes every
// row is satisfied, in which some row has to wait, and in which something was added.
ghost use Rattle.std.specs.Prelude.{◌≡◌, ◌&&◌, not, ℕ, ◌+◌, ◌*◌, ◌≤◌, ◌<◌, length, get_or, set};
ghost use Rattle.std.specs.Int.Bits.{bit_or};
ghost use Rattle.atoms.specs.Atoms.{has};
ghost use Rattle.lpod.specs.Satisfied.{all_in, none_in, body_holds, satisfies, satisfies_all};
ghost use Rattle.words.specs.Coded.{rule_in, rules_in};
ghost use Rattle.lanes.specs.Lanes as means;
ghost use Rattle.lanes.specs.Pass as goes;

use super::rules::Rules;
use super::word::{self, Block};
use words::row;

// What the head of a row says of the lanes: where no head atom is in the set, and where an atom went in that was not there.
#[derive(Clone, Copy)]
struct Headed {
    none: u64,
    grew: u64,
}

// The lanes of t whose set has no head atom. In those of t that fire, the first head atom in the lane's set goes into what is reached there.
fn head_pass(row: u64, t: u64, fire: u64, w: &[u64; 16], cur: &mut [u64; 16]) -> Headed
    ensures { ((j : ℕ) → j < 64 → has result.none j ≡ (has t j && none_in (rule_in row).head (means.column w.now j))) × ((j : ℕ) → j < 64 → means.column cur.new j ≡ goes.put (rule_in row).head (means.column w.now j) (has t j && has fire j) (means.column cur.old j)) × ((j : ℕ) → j < 64 → has result.grew j ≡ goes.adds (rule_in row).head (means.column w.now j) (has t j && has fire j) (means.column cur.old j)) }
{
    let mut x = t;
    let mut grew = 0;
    let mut d = (row / 1099511627776) as u32;
    for _ in 0..row::head_count(row) {
        let a = d % 16;
        let y = word::at(w, a);
        let v = x & fire & y;
        grew |= v & !word::at(cur, a);
        cur[a as usize] |= v;
        x &= !y;
        d /= 16;
    }
    Headed { none: x, grew }
}

// What a pass says of the lanes: where the rows are satisfied, where some row waits, and where something went in.
#[derive(Clone, Copy)]
pub struct Passed {
    pub ok: u64,
    pub wait: u64,
    pub grew: u64,
}

// One row in the pass. Most bodies hold in no lane of a block.
fn row_pass(row: u64, low: u64, block: Block<'_>, cur: &mut [u64; 16]) -> Passed
    requires { means.LowBody row low }
    ensures { means.Says block.entry.number result.ok (λ s. satisfies s (rule_in row)) × ((j : ℕ) → j < 64 → has result.wait j ≡ (body_holds (rule_in row) (64 * block.entry.number + j) && not (all_in (rule_in row).pos (means.column cur.old j)))) × ((j : ℕ) → j < 64 → means.column cur.new j ≡ goes.pass_row (rule_in row) (64 * block.entry.number + j) (means.column cur.old j)) × ((j : ℕ) → j < 64 → has result.grew j ≡ goes.row_adds (rule_in row) (64 * block.entry.number + j) (means.column cur.old j)) }
{
    let x = block.body(row, low);
    if x == 0 {
        return Passed {
            ok: u64::MAX,
            wait: 0,
            grew: 0,
        };
    }
    let fire = word::all_in((row % 65536) as u16, cur, x);
    let h = head_pass(row, x, fire, block.words, cur);
    Passed {
        ok: !h.none,
        wait: x & !fire,
        grew: h.grew,
    }
}

// All rows, one after the other.
pub fn pass(rules: Rules<'_>, block: Block<'_>, cur: &mut [u64; 16]) -> Passed
    ensures { means.Says block.entry.number result.ok (λ s. satisfies_all s (rules_in rules.entry.rows.now)) × ((j : ℕ) → j < 64 → has result.wait j ≡ goes.waits (rules_in rules.entry.rows.now) (64 * block.entry.number + j) (means.column cur.old j)) × ((j : ℕ) → j < 64 → means.column cur.new j ≡ goes.pass (rules_in rules.entry.rows.now) (64 * block.entry.number + j) (means.column cur.old j)) × ((j : ℕ) → j < 64 → has result.grew j ≡ goes.grows (rules_in rules.entry.rows.now) (64 * block.entry.number + j) (means.column cur.old j)) }
{
    let mut ok = u64::MAX;
    let mut wait = 0;
    let mut grew = 0;
    for (n, &row) in rules.rows.iter().enumerate() {
        let r = row_pass(row, rules.lows[n], block, cur);
        ok &= r.ok;
        wait |= r.wait;
        grew |= r.grew;
    }
    Passed { ok, wait, grew }
}
