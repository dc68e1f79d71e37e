// How a share is encoded for the comparison, level by level, and the coefficients of the polynomial that tells equal codes.
#![tactic(auto)]

pub mod codes;
pub mod table;
