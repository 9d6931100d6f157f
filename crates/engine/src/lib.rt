// What is asked of a page and a flag word: the list of its answer sets, the degrees of one, which of two is preferred, the best sets, the pick.
// Every call takes every page, flag word, set and lent slice; a bad one gets the first refusal, and lent memory stays as it was.
#![tactic(auto)]

pub mod best;
pub mod compare;
pub mod degrees;
pub mod list;
pub mod pick;
pub mod rank;
