// The text side of a command-line program: a line of numbers is read, and text is put into a lent slice.
#![tactic(auto)]

pub mod reading;
pub mod writing;
