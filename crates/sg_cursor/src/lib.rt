//! What is still to read of a declaration of SSL-P: its tokens, and what stands in expressions and clauses alike.
#![tactic(auto)]

mod levels;
mod lexed;
mod references;
mod refusal;
mod tokens;

pub use levels::{ATOM, CHOICE, PREFIX, level, next_by, right_by};
pub use references::{named_reference, own_reference, pair, target, truth};
pub use refusal::Refusal;
pub use tokens::Tokens;
