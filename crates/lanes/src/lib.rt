// Sixty-four sets in one go: a word has a bit for each of them, and the tests of a set become operations on whole words. Rows and pairs come in words, as
// the tests of one set take them. What other crates may call, in `sets`, takes any words; the rest is private and may ask for more.
#![tactic(auto)]

mod answer;
mod blocks;
mod close;
mod fill;
mod heads;
mod marks;
mod members;
mod program;
mod rank;
mod ranking;
mod rules;
mod search;
pub mod sets;
mod span;
mod word;
