// Points of a text, each counted from another one, so that a long line with many places is passed over once.
ghost use Rattle.std.specs.Prelude.{◌≡◌, ◌==◌, ◌≤◌, count_by, drop, length, take};
ghost use Rattle.sg_text.specs.Bytes.{newline};
ghost use Rattle.sg_place.specs.Points.{IsPoint};

use crate::shown::left_len;

/// A place of a text, its line, from 1, and how many bytes stand on this line before it.
#[derive(Clone, Copy)]
pub struct Point {
    pub at: usize,
    pub line: usize,
    pub left: usize,
}

/// The beginning of a text.
pub fn start(bytes: &[u8]) -> Point
    ensures point { IsPoint bytes.now result }
    ensures at { result.at ≡ 0 }
{
    let _ = bytes;
    Point {
        at: 0,
        line: 1,
        left: 0,
    }
}

// The bytes from a place up to another.
fn stretch(bytes: &[u8], from: usize, to: usize) -> &[u8]
    requires rising { from ≤ to }
    requires within { to ≤ length bytes.now }
    ensures { result.now ≡ drop from (take to bytes.now) }
{
    &bytes[..to][from..]
}

fn newlines(bytes: &[u8]) -> usize
    ensures value { result ≡ count_by (λ b. b == newline) bytes.now }
    ensures within { result ≤ length bytes.now }
{
    bytes.iter().filter(|byte| **byte == b'\n').count()
}

// The point at a place that is not before the known one.
fn onward(bytes: &[u8], known: Point, at: usize) -> Point
    requires known { IsPoint bytes.now known }
    requires rising { known.at ≤ at }
    requires within { at ≤ length bytes.now }
    ensures point { IsPoint bytes.now result }
    ensures at { result.at ≡ at }
{
    let gap = at - known.at;
    let between = stretch(bytes, known.at, at);
    let line = known.line + newlines(between);
    let left = left_len(between, gap);
    if left < gap {
        return Point { at, line, left };
    }
    let left = known.left + gap;
    Point { at, line, left }
}

/// The point at another place: only what stands between the two is passed over, or before this place where it is the
/// earlier one.
pub fn moved(bytes: &[u8], known: Point, at: usize) -> Point
    requires known { IsPoint bytes.now known }
    requires within { at ≤ length bytes.now }
    ensures point { IsPoint bytes.now result }
    ensures at { result.at ≡ at }
{
    if at < known.at {
        onward(bytes, start(bytes), at)
    } else {
        onward(bytes, known, at)
    }
}
