//! What is typed at the point, and taken away there, where a capture may be open.
ghost use Rattle.std.specs.Prelude.{◌≡◌, ◌↔◌, [], true, false, IfOk, IsTrue, MatchOption, ⊤, option_map, unwrap_or};
ghost use Rattle.sg_kinds.specs.Values.{is_text};
ghost use Rattle.sg_changes.specs.Captured.{captured, put_in, taken_out};

use sg_changes::Capture;
use sg_kinds::memory::NoMemory;
use std::alloc::Global;

/// The capture with these bytes put at the point, of an empty one where there is none.
pub fn typed(alloc: Global, open_one: &Option<Capture>, bytes: &[u8]) -> Result<Capture, NoMemory>
    requires { IsTrue (is_text bytes.now) }
    ensures { IfOk result (λ c. c ≡ put_in (unwrap_or open_one.now (captured [] 0)) bytes.now) }
{
    match open_one {
        Some(capture) => capture.copy_with(alloc, bytes),
        None => Capture::new(alloc).copy_with(alloc, bytes),
    }
}

/// Takes the byte before the point away; false exactly where there is no capture or no byte stands there, and nothing
/// changes then.
pub fn erase(open_one: &mut Option<Capture>) -> bool
    ensures none { (result ≡ false) ↔ MatchOption open_one.old ⊤ (λ c. c.point ≡ 0) }
    ensures done { result ≡ true → open_one.new ≡ option_map taken_out open_one.old }
    ensures refused { result ≡ false → open_one.new ≡ open_one.old }
{
    match open_one {
        Some(capture) => capture.erase(),
        None => false,
    }
}
