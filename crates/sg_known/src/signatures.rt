//! The operators and functions of a name, as they are declared.
ghost use Rattle.std.specs.Prelude.{◌≡◌, ◌++◌, flat_map, IfOk, OnOk};
ghost use Rattle.sg_ast.specs.View.{tree_of, trees_of};
ghost use Rattle.sg_known.specs.Signatures.{alt_text, arg_text, builtin_text, function_text, param_text, signature_begin, signature_end, signature_lines, signature_of};

use sg_ast::decl::{Alt, Decl};
use sg_ast::name::{Name, Typed};
use sg_kinds::decimal::write_number;
use sg_kinds::memory::NoMemory;
use std::alloc::Global;

fn write_arg(out: &mut Vec<u8>, of: &Name) -> Result<(), NoMemory>
    ensures { OnOk result (out.new.items ≡ out.old.items ++ arg_text of.now) }
{
    out.extend_from_slice(of.text.as_slice())?;
    out.push(b' ')?;
    Ok(())
}

fn write_args(out: &mut Vec<u8>, args: &[Name]) -> Result<(), NoMemory>
    ensures { OnOk result (out.new.items ≡ out.old.items ++ flat_map arg_text args.now) }
{
    for of in args {
        write_arg(out, of)?;
    }
    Ok(())
}

fn write_params(out: &mut Vec<u8>, params: &[Typed]) -> Result<(), NoMemory>
    ensures { OnOk result (out.new.items ≡ out.old.items ++ flat_map param_text params.now) }
{
    for param in params {
        write_arg(out, &param.of)?;
    }
    Ok(())
}

// Begins a line with a name.
fn write_begin(out: &mut Vec<u8>, name: &[u8]) -> Result<(), NoMemory>
    ensures { OnOk result (out.new.items ≡ out.old.items ++ signature_begin name.now) }
{
    out.extend_from_slice(b"  ")?;
    out.extend_from_slice(name)?;
    out.extend_from_slice(b" : ")?;
    Ok(())
}

// Ends it with a type, and the line of the name.
fn write_end(alloc: Global, out: &mut Vec<u8>, of: &Name, line: u32) -> Result<(), NoMemory>
    ensures { OnOk result (out.new.items ≡ out.old.items ++ signature_end of.now line) }
{
    out.extend_from_slice(b"-> ")?;
    out.extend_from_slice(of.text.as_slice())?;
    out.extend_from_slice(b", line ")?;
    write_number(alloc, out, line as u64)?;
    out.push(b'\n')?;
    Ok(())
}

// Writes an operator of a phylum, if it has this name.
fn write_alt(
    alloc: Global,
    out: &mut Vec<u8>,
    name: &[u8],
    phylum: &Name,
    alt: &Alt,
) -> Result<(), NoMemory>
    ensures { OnOk result (out.new.items ≡ out.old.items ++ alt_text name.now phylum.now alt.now) }
{
    if name == alt.name.text.as_slice() {
        write_begin(out, name)?;
        write_args(out, alt.args.as_slice())?;
        write_end(alloc, out, phylum, alt.name.place.line)?;
    }
    Ok(())
}

fn write_alts(
    alloc: Global,
    out: &mut Vec<u8>,
    name: &[u8],
    phylum: &Name,
    alts: &[Alt],
) -> Result<(), NoMemory>
    ensures { OnOk result (out.new.items ≡ out.old.items ++ flat_map (alt_text name.now phylum.now) alts.now) }
{
    for alt in alts {
        write_alt(alloc, out, name, phylum, alt)?;
    }
    Ok(())
}

// Writes a function, if it has this name.
fn write_function(
    alloc: Global,
    out: &mut Vec<u8>,
    name: &[u8],
    of: &Name,
    function: &Name,
    params: &[Typed],
) -> Result<(), NoMemory>
    ensures { OnOk result (out.new.items
        ≡ out.old.items ++ function_text name.now of.now function.now params.now) }
{
    if name == function.text.as_slice() {
        write_begin(out, name)?;
        write_params(out, params)?;
        write_end(alloc, out, of, function.place.line)?;
    }
    Ok(())
}

// Writes what a declaration declares before parentheses under this name.
fn write_signature(
    alloc: Global,
    out: &mut Vec<u8>,
    name: &[u8],
    decl: &Decl,
) -> Result<(), NoMemory>
    ensures { OnOk result (out.new.items ≡ out.old.items ++ signature_of name.now (tree_of decl.now)) }
{
    match decl {
        Decl::Operators(phylum, alts) => write_alts(alloc, out, name, phylum, alts.as_slice()),
        Decl::Function(of, function, params, _) => {
            write_function(alloc, out, name, of, function, params.as_slice())
        }
        Decl::Root(_)
        | Decl::Listed(_)
        | Decl::Optional(..)
        | Decl::Lexeme(..)
        | Decl::Attributes(..)
        | Decl::Equations(..)
        | Decl::Schemes(..)
        | Decl::Transform(..)
        | Decl::Productions(..)
        | Decl::Entry(..)
        | Decl::Levels(..) => Ok(()),
    }
}

fn builtin(name: &[u8]) -> &'static str
    ensures { result.now ≡ builtin_text name.now }
{
    if name == b"STRtoINT".as_slice() {
        "  STRtoINT : STR -> INT\n"
    } else if name == b"INTtoSTR".as_slice() {
        "  INTtoSTR : INT -> STR\n"
    } else if name == b"STRlen".as_slice() {
        "  STRlen : STR -> INT\n"
    } else {
        ""
    }
}

/// A line for each operator and function of this name, with the types of its parts and its own.
pub fn signatures(alloc: Global, decls: &[Decl], name: &[u8]) -> Result<Vec<u8>, NoMemory>
    ensures { IfOk result (λ v. v.items ≡ signature_lines (trees_of decls.now) name.now) }
{
    let mut out = Vec::from_slice(alloc, builtin(name).as_bytes())?;
    for decl in decls {
        write_signature(alloc, &mut out, name, decl)?;
    }
    Ok(out)
}
