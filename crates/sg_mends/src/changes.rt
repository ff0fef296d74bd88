//! What mends a text.
use crate::piece::Piece;
use sg_kinds::row::Row;

/// What mends a text whose reading stops at a token.
#[derive(Drop)]
pub enum Mends {
    /// any one of these, put in before the token
    PutIn(Row<Piece>),
    /// that the token is taken out
    TakeOut,
    /// any one of these in place of the token
    Instead(Row<Piece>),
    /// no change of one token; reading goes past these at its place
    Past(Row<Piece>),
    /// the text is over 65,536 bytes
    Untried,
}
