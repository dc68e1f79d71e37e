// Arithmetic modulo p = 2^n - 1 on words, for the widths n that a box may have.
#![tactic(auto)]

mod width;

pub use width::{Width, all_below, wide_mul};
