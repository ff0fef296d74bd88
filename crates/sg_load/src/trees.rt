//! The declarations of a text.
ghost use Rattle.std.specs.Prelude.{◌≡◌, ◌≢◌, ◌≤◌, length, IfOk, IfErr, Ok, Err};
ghost use Rattle.sg_text.specs.Lines.{line_at as line_of};
ghost use Rattle.sg_ast.specs.View.{trees_of};
ghost use Rattle.sg_ast.specs.Written.{HaveWritten};
ghost use Rattle.sg_load.specs.Trees.{token_fault as fault_of, trees_in};

use sg_ast::decl::Decl;
use sg_kinds::fault::SpecFault;
use sg_kinds::limits::TEXT_BYTES;
use sg_reader::ReadFault;
use sg_text::{LexFault, lex, line_at};
use std::alloc::Global;

/// The line of a place; past the end it is the last one.
#[tactic(auto, using(crate::proofs::Tokens::line_at_end))]
fn line(bytes: &[u8], place: usize) -> u32
    requires { length bytes.now ≤ 1048576 }
    ensures { result ≡ line_of bytes.now place }
{
    line_at(bytes, place.min(bytes.len()))
}

/// The fault of a text whose tokens have this one.
fn token_fault(bytes: &[u8], fault: LexFault) -> SpecFault
    requires { length bytes.now ≤ 1048576 }
    ensures { result ≡ fault_of bytes.now fault }
{
    match fault {
        LexFault::Byte(place) => SpecFault::Byte(line(bytes, place)),
        LexFault::Unclosed(place) => SpecFault::Unclosed(line(bytes, place)),
        LexFault::LongNumber(place) => SpecFault::LongNumber(line(bytes, place)),
        LexFault::LongName(place) => SpecFault::LongName(line(bytes, place)),
        LexFault::NoMemory => SpecFault::NoMemory,
    }
}

/// The declarations that a text spells, or the first fault of its length, its tokens and its syntax.
#[tactic(auto, unfolding(crate::specs::Trees::trees_in))]
fn parsed(alloc: Global, bytes: &[u8]) -> Result<Vec<Decl>, SpecFault>
    ensures trees { IfOk result (λ ds. trees_in bytes.now ≡ Ok (trees_of ds.items)) }
    ensures fault { IfErr result (λ f. f ≢ SpecFault.NoMemory → trees_in bytes.now ≡ Err f) }
{
    if bytes.len() > TEXT_BYTES {
        return Err(SpecFault::TooLong);
    }
    let tokens = match lex(alloc, bytes) {
        Ok(tokens) => tokens,
        Err(fault) => return Err(token_fault(bytes, fault)),
    };
    match sg_reader::read(alloc, bytes, &tokens) {
        Ok(decls) => Ok(decls),
        Err(ReadFault::Syntax(_, line)) => Err(SpecFault::Syntax(line)),
        Err(ReadFault::NoMemory) => Err(SpecFault::NoMemory),
    }
}

/// The declarations of a text, or the first fault of its length, its tokens and its syntax.
pub fn read(alloc: Global, bytes: &[u8]) -> Result<Vec<Decl>, SpecFault>
    ensures trees { IfOk result (λ ds. trees_in bytes.now ≡ Ok (trees_of ds.items)) }
    ensures written { IfOk result (λ ds. HaveWritten (trees_of ds.items)) }
    ensures fault { IfErr result (λ f. f ≢ SpecFault.NoMemory → trees_in bytes.now ≡ Err f) }
{
    parsed(alloc, bytes)
}
