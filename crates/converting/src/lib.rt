//! How a unit's tree is converted to its preference. So far this crate has only the definitions in specs/.

#![tactic(auto)]
