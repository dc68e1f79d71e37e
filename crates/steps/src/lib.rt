// The steps of a round: opening and closing squares and products, the levels' polynomial, and the answer from the half tests.
#![tactic(auto)]

pub mod halves;
pub mod levels;
pub mod places;
pub mod products;
pub mod squares;
pub mod tests;
