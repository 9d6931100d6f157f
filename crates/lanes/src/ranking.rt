// What a search for best sets asks of the rules, made once.
ghost use Rattle.std.specs.Prelude.{◌≡◌, ◌≤◌, length};
ghost use Rattle.lpod.specs.Preferred.{longest};
ghost use Rattle.words.specs.Coded.{rules_in};

use crate::rules::Rules;
use crate::span::Span;

// The rules that rank, the longest of their heads, the blocks that are searched, and a word for each block: see `indexes` in `search`.
#[derive(Clone, Copy)]
pub struct Ranking<'a> {
    pub rules: Rules<'a>,
    pub deepest: u8,
    pub span: Span,
    pub index: &'a [u32],
    pub ghost few: { length rules.rows.now ≤ 32 },
    pub ghost deep: { deepest ≡ longest (rules_in rules.rows.now) },
}
