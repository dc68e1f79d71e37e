// No code: lists of calls and power cuts at the two boxes, and what holds over every such list.
#![tactic(auto)]
