//! Numbered occurrences among a left side and what stands right of it.
ghost use Rattle.std.specs.Prelude.{◌≡◌, ◌≤◌, Bool, length, slice_get, IfSome};
ghost use Rattle.sg_names.specs.Lookups as spec;

use sg_ast::decl::Part;
use sg_ast::name::Occurrence;
use sg_ast::number::Number;
use sg_kinds::ids::PhylumId;
use sg_kinds::text::Text;

/// A test of elements.
pub(crate) trait Test<X> {
    /// Whether an element passes.
    ghost passes: { Self → X → Bool };

    fn passes(&self, x: &X) -> bool
        ensures { result ≡ passes self.now x.now };
}

/// Passes one phylum.
#[derive(Clone, Copy)]
pub(crate) struct IsPhylum(pub PhylumId);

impl Test<PhylumId> for IsPhylum {
    ghost use Rattle.std.specs.Prelude.{nat_eq};

    ghost passes = { λ t p. nat_eq t.0 p };

    fn passes(&self, phylum: &PhylumId) -> bool {
        self.0.number == phylum.number
    }
}

/// Passes the symbols of a name.
#[derive(Clone, Copy)]
pub(crate) struct IsNamed<'a>(pub &'a Text);

impl Test<Part> for IsNamed<'_> {
    ghost use Rattle.sg_names.specs.Lookups.{is_part};

    ghost passes = { λ t p. is_part t.0.now p };

    fn passes(&self, part: &Part) -> bool {
        match part {
            Part::Named(name) => self.0.as_slice() == name.text.as_slice(),
            Part::Literal(_) => false,
        }
    }
}

/// The place, counted from 1, of the element that passes with a number counted from 0.
fn nth<X, T: Test<X>>(test: &T, xs: &[X], mut number: u64) -> Option<usize>
    ensures value { result ≡ slice_get (spec.places_from (T.passes test.now) 1 xs.now) number }
    ensures within { IfSome result (λ at. at ≤ length xs.now) }
{
    for (place, x) in xs.iter().enumerate() {
        if test.passes(x) {
            if number == 0 {
                return Some(place + 1);
            }
            number -= 1;
        }
    }
    None
}

/// The same with 0 before them, where the left side passes.
fn nth_with_left<X, T: Test<X>>(test: &T, left: bool, xs: &[X], number: u64) -> Option<usize>
    ensures value { result ≡ slice_get (spec.places (T.passes test.now) left xs.now) number }
    ensures within { IfSome result (λ at. at ≤ length xs.now) }
{
    if !left {
        nth(test, xs, number)
    } else if number == 0 {
        Some(0)
    } else {
        nth(test, xs, number - 1)
    }
}

/// The occurrence with a number counted from 1, or the only one.
pub(crate) fn chosen<X, T: Test<X>>(
    test: &T,
    left: bool,
    xs: &[X],
    number: Option<Number>,
) -> Option<usize>
    ensures value { result ≡ spec.chosen number (spec.places (T.passes test.now) left xs.now) }
    ensures within { IfSome result (λ at. at ≤ length xs.now) }
{
    match number {
        Some(number) => {
            let number = number.get().unsigned_abs();
            if number == 0 {
                return None;
            }
            nth_with_left(test, left, xs, number - 1)
        }
        None => {
            if nth_with_left(test, left, xs, 1).is_some() {
                return None;
            }
            nth_with_left(test, left, xs, 0)
        }
    }
}

/// An occurrence of a symbol of an input production, counted from 1. The left side has no name in it.
pub fn symbol(left: &Text, parts: &[Part], written: &Occurrence) -> Option<usize>
    ensures { result ≡ spec.symbol left.now parts.now written.now }
{
    match written {
        Occurrence::Own(_) => None,
        Occurrence::Named(name, number) => {
            let is_left = name.text.as_slice() == left.as_slice();
            match chosen(&IsNamed(&name.text), is_left, parts, *number) {
                Some(0) | None => None,
                Some(at) => Some(at),
            }
        }
    }
}
