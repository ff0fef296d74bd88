//! The pieces of a scheme's string.
ghost use Rattle.std.specs.Prelude.{◌≡◌, true, [], ◌∷◌, option_map, IfOk};
ghost use Rattle.std.specs.declared.vec.Vec.{Vec};
ghost use Rattle.sg_kinds.specs.Pieces.{pieces_of};
ghost use Rattle.sg_kinds.specs.declared.spec.Piece.TheVariants as piece;
ghost use Rattle.sg_views.specs.PiecesView.{told, meant, Joins, Steps};

use sg_kinds::memory::NoMemory;
use sg_kinds::spec::Piece;
use sg_kinds::text::Text;
use std::alloc::Global;

/// The last piece, which bytes or steps behind it join.
#[derive(Drop)]
enum Last {
    Nothing,
    Written(Vec<u8>),
    /// So many steps back, and then so many on.
    Margin(u32, u32),
}

/// The pieces so far, the last of them, and whether a `%` stands behind these.
#[derive(Drop)]
struct Writing {
    pieces: Vec<Piece>,
    last: Last,
    percent: bool,
}

impl Writing {
    /// The pieces.
    fn told(self) -> Result<Vec<Piece>, NoMemory>
        ensures { IfOk result (λ v. v.items ≡ told self []) }
    {
        let Writing {
            mut pieces,
            last,
            ..
        } = self;
        match last {
            Last::Nothing => {}
            Last::Written(bytes) => pieces.push(Piece::Written(Text::new(bytes)))?,
            Last::Margin(back, on) => pieces.push(Piece::Margin(back, on))?,
        }
        Ok(pieces)
    }

    /// A newline more.
    fn with_newline(self) -> Result<Writing, NoMemory>
        ensures { IfOk result (Joins self piece.Newline) }
    {
        let mut pieces = self.told()?;
        pieces.push(Piece::Newline)?;
        Ok(Writing {
            pieces,
            last: Last::Nothing,
            percent: false,
        })
    }

    /// A byte more that is written.
    fn with_written(self, alloc: Global, byte: u8) -> Result<Writing, NoMemory>
        ensures { IfOk result (Joins self (piece.Written (byte ∷ []))) }
    {
        let Writing { pieces, last, .. } = self;
        if let Last::Written(mut bytes) = last {
            bytes.push(byte)?;
            return Ok(Writing {
                pieces,
                last: Last::Written(bytes),
                percent: false,
            });
        }
        let closed = Writing {
            pieces,
            last,
            percent: false,
        };
        let pieces = closed.told()?;
        let bytes = vec![in alloc; byte]?;
        Ok(Writing {
            pieces,
            last: Last::Written(bytes),
            percent: false,
        })
    }

    /// A step of the margin back.
    fn with_back(self) -> Result<Writing, NoMemory>
        ensures { IfOk result (Joins self (piece.Margin 1 0)) }
    {
        let Writing { pieces, last, .. } = self;
        if let Last::Margin(back, on) = last {
            let last = if on > 0 {
                Last::Margin(back, on - 1)
            } else {
                Last::Margin(back.checked_add(1).ok_or(NoMemory)?, 0)
            };
            return Ok(Writing {
                pieces,
                last,
                percent: false,
            });
        }
        let closed = Writing {
            pieces,
            last,
            percent: false,
        };
        let pieces = closed.told()?;
        Ok(Writing {
            pieces,
            last: Last::Margin(1, 0),
            percent: false,
        })
    }

    /// A step of the margin on.
    fn with_on(self) -> Result<Writing, NoMemory>
        ensures { IfOk result (Joins self (piece.Margin 0 1)) }
    {
        let Writing { pieces, last, .. } = self;
        if let Last::Margin(back, on) = last {
            let on = on.checked_add(1).ok_or(NoMemory)?;
            return Ok(Writing {
                pieces,
                last: Last::Margin(back, on),
                percent: false,
            });
        }
        let closed = Writing {
            pieces,
            last,
            percent: false,
        };
        let pieces = closed.told()?;
        Ok(Writing {
            pieces,
            last: Last::Margin(0, 1),
            percent: false,
        })
    }

    /// What a `%` and this byte write more.
    #[tactic(auto, using(crate::proofs::PiecesMade::escape_fails))]
    fn with_escape(self, alloc: Global, byte: u8) -> Result<Option<Writing>, NoMemory>
        requires { self.percent ≡ true }
        ensures { IfOk result (Steps self byte) }
    {
        match byte {
            b'n' => Ok(Some(self.with_newline()?)),
            b't' => Ok(Some(self.with_on()?)),
            b'b' => Ok(Some(self.with_back()?)),
            b'%' => Ok(Some(self.with_written(alloc, byte)?)),
            _ => Ok(None),
        }
    }

    /// A byte more.
    #[tactic(auto, using(crate::proofs::PiecesMade::byte_steps, crate::proofs::PiecesMade::percent_steps))]
    fn with_byte(mut self, alloc: Global, byte: u8) -> Result<Option<Writing>, NoMemory>
        ensures { IfOk result (Steps self byte) }
    {
        if self.percent {
            return self.with_escape(alloc, byte);
        }
        if byte == b'%' {
            self.percent = true;
            return Ok(Some(self));
        }
        Ok(Some(self.with_written(alloc, byte)?))
    }

    /// The pieces of the whole, if no `%` stands last.
    fn done(self) -> Result<Option<Vec<Piece>>, NoMemory>
        ensures { IfOk result (λ o. option_map (λ v. v.items) o ≡ meant self []) }
    {
        if self.percent {
            return Ok(None);
        }
        Ok(Some(self.told()?))
    }
}

/// The pieces of a string, or None exactly where a `%` stands before another byte than `n`, `t`, `b`, `%`, or at its
/// end.
#[tactic(auto, using(crate::proofs::PiecesMade::goes_on, crate::proofs::PiecesMade::fails, crate::proofs::PiecesMade::ends))]
pub fn pieces(alloc: Global, bytes: &[u8]) -> Result<Option<Vec<Piece>>, NoMemory>
    ensures { IfOk result (λ o. option_map (λ v. v.items) o ≡ pieces_of bytes.now) }
{
    let mut writing = Writing {
        pieces: Vec::new(alloc),
        last: Last::Nothing,
        percent: false,
    };
    for byte in bytes {
        let Some(next) = writing.with_byte(alloc, *byte)? else {
            return Ok(None);
        };
        writing = next;
    }
    writing.done()
}
