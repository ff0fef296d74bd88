//! The reserved words of SSL-P.
ghost use Rattle.std.specs.Prelude.{◌≡◌};
ghost use Rattle.sg_text.specs.Words.{keyword_of};

/// A reserved word.
#[derive(Clone, Copy, Debug, PartialEq, Eq)]
pub enum Keyword {
    Root,
    List,
    Optional,
    Synthesized,
    Inherited,
    Local,
    Transform,
    On,
    Let,
    In,
    With,
    Default,
    True,
    False,
}

/// The reserved word that is spelled so.
pub fn keyword_of(word: &[u8]) -> Option<Keyword>
    ensures { result ≡ keyword_of word.now }
{
    match word {
        b"root" => Some(Keyword::Root),
        b"list" => Some(Keyword::List),
        b"optional" => Some(Keyword::Optional),
        b"synthesized" => Some(Keyword::Synthesized),
        b"inherited" => Some(Keyword::Inherited),
        b"local" => Some(Keyword::Local),
        b"transform" => Some(Keyword::Transform),
        b"on" => Some(Keyword::On),
        b"let" => Some(Keyword::Let),
        b"in" => Some(Keyword::In),
        b"with" => Some(Keyword::With),
        b"default" => Some(Keyword::Default),
        b"true" => Some(Keyword::True),
        b"false" => Some(Keyword::False),
        _ => None,
    }
}
