// A page in words, made once for each call: a row in one word of 64 bits, with its two bodies as sets, and a pair in one of 16. The tests of sets
// take the words and not the page, so that a set that is tried reads nothing of the page.
#![tactic(auto)]

pub mod read;
pub mod row;
pub mod rows;
