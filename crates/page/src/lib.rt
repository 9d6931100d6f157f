// The page: its fields and parts, read so that any bytes will do; the number it is refused with, and that number's letter; how much of each
// part it may have; its rows, one at a time; the row reader.
#![tactic(auto)]

pub mod accept;
pub mod fields;
pub mod letter;
pub mod ranges;
pub mod reader;
pub mod refusal;
pub mod rows;
