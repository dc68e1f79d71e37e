// The secure comparison of document 003 by document 01: what a box sends in a round, and what it works out from what it hears.
#![tactic(auto)]

pub mod factors;
mod filling;
mod hearing;
mod party;
mod speaking;
pub mod words;

pub use party::Party;
