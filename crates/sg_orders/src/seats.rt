//! The seats of an argument's visits, and the visits to which positions belong.
ghost use Rattle.std.specs.Prelude.{◌≡◌, ◌+◌, ◌<◌, ◌≤◌, ◌&&◌, max, min, length, unwrap_or};
ghost use Rattle.sg_kinds.specs.Visits.{greatest as greatest_of};
ghost use Rattle.sg_orders.specs.SeatRows.{is_given as is_given_by, seat_in, gives_in, belongs_in};

use sg_kinds::marks::Way;
use sg_kinds::spec::Attr;

/// The greatest of some numbers, or 0.
pub fn greatest(numbers: &[u32]) -> u32
    ensures { result ≡ greatest_of numbers.now }
{
    let mut greatest = 0;
    for &number in numbers {
        if greatest < number {
            greatest = number;
        }
    }
    greatest
}

/// How many visits a phylum has whose attributes have these: at least one.
pub fn visit_count(visits: &[u32]) -> u32
    ensures { result ≡ max 1 (greatest_of visits.now) }
{
    greatest(visits).max(1)
}

/// Whether an attribute is synthesized and of a visit.
fn is_given(attrs: &[Attr], visits: &[u32], visit: u32, a: usize) -> bool
    requires there { a < length attrs.now }
    requires visits { length visits.now ≡ length attrs.now }
    ensures { result ≡ is_given_by attrs.now visits.now visit a }
{
    attrs[a].way == Way::Synthesized && visits[a] == visit
}

/// The lesser of a number and one that may be there.
fn lesser(least: Option<usize>, place: usize) -> usize
    ensures { result ≡ min place (unwrap_or least place) }
{
    match least {
        None => place,
        Some(least) => { if place < least { place } else { least } }
    }
}

/// The position of a visit of an argument: the least of its synthesized attributes, or `behind` where it has none.
pub fn seat(
    attrs: &[Attr],
    visits: &[u32],
    places: &[u32],
    first: usize,
    behind: usize,
    visit: u32,
) -> usize
    requires visits { length visits.now ≡ length attrs.now }
    requires places { first + length attrs.now ≤ length places.now }
    ensures { result ≡ seat_in attrs.now visits.now places.now first behind visit }
{
    let mut least = None;
    for a in 0..attrs.len() {
        if is_given(attrs, visits, visit, a) {
            least = Some(lesser(least, places[first + a] as usize));
        }
    }
    least.unwrap_or(behind)
}

/// The visit of the left side to which a position belongs: the first of its visits that has a synthesized attribute
/// at the position or later, else the last.
pub fn belongs(attrs: &[Attr], visits: &[u32], places: &[u32], count: u32, place: usize) -> u32
    requires visits { length visits.now ≡ length attrs.now }
    requires places { length attrs.now ≤ length places.now }
    requires count { 1 ≤ count }
    ensures exact { result ≡ belongs_in attrs.now visits.now places.now count place }
    ensures low { 1 ≤ result }
    ensures high { result ≤ count }
{
    for earlier in 0..count {
        if gives_from(attrs, visits, places, place, earlier + 1) {
            return earlier + 1;
        }
    }
    count
}

/// Whether a visit has a synthesized attribute at a position or later.
fn gives_from(attrs: &[Attr], visits: &[u32], places: &[u32], place: usize, visit: u32) -> bool
    requires visits { length visits.now ≡ length attrs.now }
    requires places { length attrs.now ≤ length places.now }
    ensures { result ≡ gives_in attrs.now visits.now places.now place visit }
{
    for a in 0..attrs.len() {
        if is_given(attrs, visits, visit, a) && place <= places[a] as usize {
            return true;
        }
    }
    false
}
