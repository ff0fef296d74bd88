// The pool of shared values: equal values have one number.
#![tactic(auto)]

pub mod entry;
pub mod pool;
