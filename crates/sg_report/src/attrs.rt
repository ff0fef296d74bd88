// The attribute of two names.
ghost use Rattle.std.specs.Prelude.{◌≡◌, ◌<◌, length, is_some, bytes_eq, IfSome};
ghost use Rattle.std.specs.List.{list_all, position};
ghost use Rattle.sg_text.specs.Bytes.{is_letter, is_name_byte};
ghost use Rattle.sg_text.specs.Forms.{is_name};
ghost use Rattle.sg_kinds.specs.Sound.{IsSound};
ghost use Rattle.sg_kinds.specs.Specification.{attrs_of};
ghost use Rattle.sg_kinds.specs.declared.spec.Attr.{Attr as AnAttr};
ghost use Rattle.sg_kinds.specs.declared.spec.Phylum.{Phylum as APhylum};
ghost use Rattle.sg_report.specs.Attrs.{named_in, attr_in};

use sg_kinds::spec::{Attr, Phylum, Spec};
use sg_load::Loaded;
use sg_printing::attrs_of;

/// An attribute of a phylum, by their numbers.
#[derive(Drop)]
pub struct Named {
    pub phylum: u32,
    pub slot: u32,
}

fn is_letter(b: u8) -> bool
    ensures { result ≡ is_letter b }
{
    b.is_ascii_alphabetic() || b == b'_'
}

fn is_name_byte(b: u8) -> bool
    ensures { result ≡ is_name_byte b }
{
    is_letter(b) || b.is_ascii_digit()
}

fn are_name_bytes(bytes: &[u8]) -> bool
    ensures { result ≡ list_all is_name_byte bytes.now }
{
    bytes.iter().all(|b| is_name_byte(*b))
}

// whether it is a name of the language
fn is_name(word: &[u8]) -> bool
    ensures { result ≡ is_name word.now }
{
    match word {
        [] => false,
        [first, rest @ ..] => is_letter(*first) && are_name_bytes(rest),
    }
}

fn phylum_place(phyla: &[Phylum], name: &[u8]) -> Option<usize>
    ensures { result ≡ position (λ (x : APhylum). bytes_eq name.now x.name) phyla.now }
{
    phyla.iter().position(|x| name == x.name.as_slice())
}

fn attr_place(attrs: &[Attr], name: &[u8]) -> Option<usize>
    ensures { result ≡ position (λ (a : AnAttr). bytes_eq name.now a.name) attrs.now }
{
    attrs.iter().position(|attr| name == attr.name.as_slice())
}

// the attribute of a name of a phylum
fn named_in(spec: &Spec, p: u32, name: &[u8]) -> Option<Named>
    requires { IsSound spec.now }
    ensures is { result ≡ named_in spec.now name.now p }
    ensures there { IfSome result (λ a. a.slot < length (attrs_of spec.now.phyla a.phylum)) }
{
    match attr_place(attrs_of(spec, p), name) {
        Some(slot) => Some(Named {
            phylum: p,
            slot: slot as u32,
        }),
        None => None,
    }
}

/// The attribute of two names, if there are such a phylum and such an attribute of it.
pub fn attr_in(spec: &Spec, phylum: &[u8], name: &[u8]) -> Option<Named>
    requires { IsSound spec.now }
    ensures is { result ≡ attr_in spec.now phylum.now name.now }
    ensures there { IfSome result (λ a. a.slot < length (attrs_of spec.now.phyla a.phylum)) }
{
    if !is_name(phylum) || !is_name(name) {
        return None;
    }
    match phylum_place(spec.phyla.as_slice(), phylum) {
        Some(p) => named_in(spec, p as u32, name),
        None => None,
    }
}

/// Whether there are such a phylum and such an attribute of it, inherited or synthesized, both by names of the
/// language. It takes no memory.
pub fn known(loaded: &Loaded, phylum: &[u8], name: &[u8]) -> bool
    ensures { result ≡ is_some (attr_in loaded.now.spec phylum.now name.now) }
{
    loaded.facts();
    attr_in(&loaded.spec, phylum, name).is_some()
}
