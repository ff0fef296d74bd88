//! Names that are one edit away.
ghost use Rattle.std.specs.Prelude.{◌≡◌};
ghost use Rattle.sg_nearby.specs.Edits.{is_edit as is_edit_of, is_near as is_near_to, is_turned as is_turned_to};

// Whether the first two bytes are turned, and no others.
fn is_turned(a: &[u8], b: &[u8]) -> bool
    ensures { result ≡ is_turned_to a.now b.now }
{
    match (a, b) {
        ([x, z, xs @ ..], [y, w, ys @ ..]) => *x == *w && (*z == *y && xs == ys),
        _ => false,
    }
}

// Whether one edit at the first byte leads from one to the other.
fn is_edit(a: &[u8], b: &[u8]) -> bool
    ensures { result ≡ is_edit_of a.now b.now }
{
    match (a, b) {
        ([_, xs @ ..], [_, ys @ ..]) => { xs == ys || (xs == b || (a == ys || is_turned(a, b))) }
        ([_, xs @ ..], []) => xs.len() == 0,
        ([], [_, ys @ ..]) => ys.len() == 0,
        ([], []) => false,
    }
}

/// Whether one edit leads from one to the other: a byte more, less or another, or two neighbours turned.
pub fn is_near(a: &[u8], b: &[u8]) -> bool
    ensures { result ≡ is_near_to a.now b.now }
{
    if let [x, xs @ ..] = a
        && let [y, ys @ ..] = b
        && *x == *y
    {
        return is_near(xs, ys);
    }
    is_edit(a, b)
}
