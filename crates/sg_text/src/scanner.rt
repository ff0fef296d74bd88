//! The scanner.
ghost use Rattle.std.specs.Prelude.{◌≡◌, ◌≢◌, ◌<◌, ◌+◌, ◌^◌, length, IfOk, IfErr, OnOk, Ok, Err, All, AllPairs};
ghost use Rattle.sg_text.specs.Placed.{IsTokenOf, EndsBefore};
ghost use Rattle.sg_text.specs.Tokens.{tokens_of, form_len, form_tokens, followed_by};

use crate::forms::{Form, form_at};
use crate::lines::newlines;
use crate::tokens::{LexFault, Token};
use std::alloc::Global;

/// Adds the token of a form that stands at this place and line, if it is one, and answers the
/// form's length.
fn add_form(tokens: &mut Vec<Token>, form: Form, from: usize, line: u32) -> Result<usize, LexFault>
    requires { from + form_len form < 2 ^ 64 }
    ensures len { IfOk result (λ n. n ≡ form_len form) }
    ensures added { OnOk result (followed_by (Ok tokens.old.items) (form_tokens from line form) ≡ Ok tokens.new.items) }
    ensures fault { IfErr result (λ f. f ≢ LexFault.NoMemory → form_tokens from line form ≡ Err f) }
{
    match form {
        Form::Gap(len) => Ok(len),
        Form::Found(kind, len) => {
            let to = from + len;
            tokens
                .push(Token {
                    kind,
                    from,
                    to,
                    line,
                })
                .map_err(|_| LexFault::NoMemory)?;
            Ok(len)
        }
        Form::Fault(fault) => Err(fault),
    }
}

/// The tokens of a text in SSL-P: at each place a blank or a comment is passed over, else the
/// longest token form that begins there is taken. The fault is the one at the least place.
pub fn lex(alloc: Global, bytes: &[u8]) -> Result<Vec<Token>, LexFault>
    requires { length bytes.now < 2 ^ 32 }
    ensures tokens { IfOk result (λ ts. tokens_of bytes.now ≡ Ok ts.items) }
    ensures fault { IfErr result (λ f. f ≢ LexFault.NoMemory → tokens_of bytes.now ≡ Err f) }
    ensures each { IfOk result (λ ts. All (IsTokenOf bytes.now) ts.items) }
    ensures in_order { IfOk result (λ ts. AllPairs EndsBefore ts.items) }
{
    let mut tokens = Vec::new(alloc);
    let mut at = 0;
    let mut line = 1;
    while at < bytes.len() {
        let rest = &bytes[at..];
        let form = form_at(rest, at);
        let len = add_form(&mut tokens, form, at, line as u32)?;
        line += newlines(&rest[..len]);
        at += len;
    }
    Ok(tokens)
}
