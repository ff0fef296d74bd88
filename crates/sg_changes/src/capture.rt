// Text that is being typed.
ghost use Rattle.std.specs.Prelude.{◌≡◌, ◌≤◌, ◌↔◌, [], true, false, length, IfOk, IsTrue};
ghost use Rattle.sg_kinds.specs.Values.{is_text};
ghost use Rattle.sg_changes.specs.Captured.{captured, put_in, taken_out};

use sg_kinds::memory::NoMemory;
use std::alloc::Global;
use std::marker::Model;

/// A text that is being typed, of the bytes 10 and 32 to 126, and a point in it: how many bytes stand before the point.
///
/// A longer text is another capture, so that the old one stays until all that is made of the new one stands.
#[derive(Drop)]
pub struct Capture {
    text: Vec<u8>,
    point: usize,
}

impl Model for Capture {
    ghost use Rattle.std.specs.Prelude.{◌≤◌, length, IsTrue};
    ghost use Rattle.sg_kinds.specs.Values.{is_text};
    ghost use Rattle.sg_changes.specs.Captured.{Captured, captured};

    ghost Value = { Captured };

    ghost view = { λ c. captured c.text.items c.point };

    ghost invariant = { λ c. (c.point ≤ length c.text.items) × IsTrue (is_text c.text.items) };
}

impl Capture {
    /// A capture without text. It takes no memory.
    pub fn new(alloc: Global) -> Capture
        ensures { result ≡ captured [] 0 }
    {
        Capture {
            text: Vec::new(alloc),
            point: 0,
        }
    }

    /// The text.
    pub fn text(&self) -> &[u8]
        ensures text { result.now ≡ self.now.text }
        ensures bytes { IsTrue (is_text self.now.text) }
    {
        self.text.as_slice()
    }

    /// How many bytes stand before the point.
    pub fn point(&self) -> usize
        ensures point { result ≡ self.now.point }
        ensures within { self.now.point ≤ length self.now.text }
    {
        self.point
    }

    /// The capture with these bytes put at the point, and the point past them. The bytes are 10 or 32 to 126.
    pub fn copy_with(&self, alloc: Global, bytes: &[u8]) -> Result<Capture, NoMemory>
        requires { IsTrue (is_text bytes.now) }
        ensures { IfOk result (λ c. c ≡ put_in self.now bytes.now) }
    {
        let (before, after) = self.text.as_slice().split_at(self.point);
        let mut text = Vec::from_slice(alloc, before)?;
        text.extend_from_slice(bytes)?;
        let point = text.len();
        text.extend_from_slice(after)?;
        Ok(Capture { text, point })
    }

    /// Takes the byte before the point away; false exactly where no byte stands there, and nothing changes then. It takes
    /// no memory.
    pub fn erase(&mut self) -> bool
        ensures none { (result ≡ false) ↔ (self.old.point ≡ 0) }
        ensures done { result ≡ true → self.new ≡ taken_out self.old }
        ensures refused { result ≡ false → self.new ≡ self.old }
    {
        if self.point == 0 {
            return false;
        }
        self.point -= 1;
        self.text.remove(self.point);
        true
    }

    /// Moves the point to another one of the text, at most its length. It takes no memory.
    pub fn move_point(&mut self, point: usize)
        requires { point ≤ length self.old.text }
        ensures { self.new ≡ record self.old { point = point } }
    {
        self.point = point;
    }
}
