//! The first definition of a phylum or nonterminal.
use sg_kinds::fault::Position;
use sg_kinds::text::Text;

/// A phylum or nonterminal as it is first defined, and whether that is by a lexeme's pattern.
#[derive(Drop)]
pub struct Head {
    pub name: Text,
    pub place: Position,
    pub lexical: bool,
}
