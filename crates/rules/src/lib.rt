// The type of the box's state. The rules of the calls are the definitions in specs/.
#![tactic(auto)]

pub mod state;
