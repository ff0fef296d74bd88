//! The tokens of SSL-P.
#![tactic(auto)]

mod bytes;
mod declarations;
mod forms;
mod lines;
mod scanner;
mod strings;
mod symbols;
mod tokens;
mod words;

pub use declarations::declaration_len;
pub use lines::line_at;
pub use scanner::lex;
pub use strings::unescape;
pub use symbols::Symbol;
pub use tokens::{Kind, LexFault, Token};
pub use words::{Keyword, keyword_of};
