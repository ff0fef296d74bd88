//! Strings of schemes.
ghost use Rattle.std.specs.Prelude.{◌≡◌, is_some};
ghost use Rattle.sg_kinds.specs.Pieces.{pieces_of};
ghost use Rattle.sg_ast.specs.FirstFault.{first};
ghost use Rattle.sg_ast.specs.View.{tree_of, trees_of};
ghost use Rattle.sg_schemes.specs.Strings.{string_fault, item_fault, scheme_fault, decl_fault, scheme_text};

use sg_ast::decl::{Decl, Item, SchemeDecl};
use sg_ast::name::Quoted;
use sg_kinds::fault::SpecFault;

/// Whether each `%` stands before `n`, `t`, `b` or `%`.
fn is_escaped(text: &[u8]) -> bool
    ensures { result ≡ is_some (pieces_of text.now) }
{
    let mut percent = false;
    for byte in text {
        if percent && !matches!(byte, b'n' | b't' | b'b' | b'%') {
            return false;
        }
        percent = !percent && *byte == b'%';
    }
    !percent
}

/// The fault of a string, if it has one.
fn string_fault(string: &Quoted) -> Option<SpecFault>
    ensures { result ≡ string_fault string.now }
{
    if is_escaped(string.text.as_slice()) {
        None
    } else {
        Some(SpecFault::SchemeText(string.place))
    }
}

fn first_string_fault(strings: &[Quoted]) -> Option<SpecFault>
    ensures { result ≡ first string_fault strings.now }
{
    for string in strings {
        if let Some(fault) = string_fault(string) {
            return Some(fault);
        }
    }
    None
}

fn item_fault(item: &Item) -> Option<SpecFault>
    ensures { result ≡ item_fault item.now }
{
    match item {
        Item::Writes(string) => string_fault(string),
        Item::Separates(strings) => first_string_fault(strings.as_slice()),
        Item::Child(_) | Item::Shows(_) => None,
    }
}

fn scheme_fault(scheme: &SchemeDecl) -> Option<SpecFault>
    ensures { result ≡ scheme_fault scheme.now }
{
    for item in scheme.items.as_slice() {
        if let Some(fault) = item_fault(item) {
            return Some(fault);
        }
    }
    None
}

fn first_scheme_fault(schemes: &[SchemeDecl]) -> Option<SpecFault>
    ensures { result ≡ first scheme_fault schemes.now }
{
    for scheme in schemes {
        if let Some(fault) = scheme_fault(scheme) {
            return Some(fault);
        }
    }
    None
}

fn decl_fault(decl: &Decl) -> Option<SpecFault>
    ensures { result ≡ decl_fault (tree_of decl.now) }
{
    match decl {
        Decl::Schemes(_, _, _, schemes) => first_scheme_fault(schemes.as_slice()),
        _ => None,
    }
}

/// The first string of a scheme in which `%` stands before another byte than `n`, `t`, `b`, `%`, or at its end.
pub fn scheme_text(decls: &[Decl]) -> Option<SpecFault>
    ensures { result ≡ scheme_text (trees_of decls.now) }
{
    for decl in decls {
        if let Some(fault) = decl_fault(decl) {
            return Some(fault);
        }
    }
    None
}
