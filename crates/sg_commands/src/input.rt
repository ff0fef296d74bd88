//! How the texts of a language are read.

use sg_lalr::Tables;
use sg_patterns::Lexemes;

/// The tables and the lexemes by which the entries of a language read texts.
#[derive(Clone, Copy)]
pub struct Input<'a> {
    pub tables: &'a Tables,
    pub lexemes: &'a Lexemes,
}
