//! All that the equations of operators lack, as lines; and where one that stands twice stood first.
#![tactic(auto)]

pub mod firsts;
pub mod lacks;
