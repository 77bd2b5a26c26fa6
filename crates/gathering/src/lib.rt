//! What the letters of a round do to the trees. So far this crate has only the definitions in specs/.

#![tactic(auto)]
