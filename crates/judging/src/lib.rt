//! Which units a unit finds at a closing, and what they leave in the trees. So far this crate has only the definitions in specs/.

#![tactic(auto)]
