//! Views: the schemes that declarations give to operators in the ordinary view and in those with a name.
#![tactic(auto)]

mod pieces;
pub mod schemes;
pub mod views;
