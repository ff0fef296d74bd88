// The rule of the window's top.
ghost use Rattle.std.specs.Prelude.{◌≡◌, ◌<◌};
ghost use Rattle.sg_changes.specs.Top.{topped};

/// The window's top, so that a window of this height shows a first line: the present top where it does, else the
/// nearest one that does. Lines are counted from 1; no number is read otherwise.
pub fn topped(height: usize, first: usize, top: usize) -> usize
    requires { 0 < height }
    ensures { result ≡ topped height first top }
{
    if first < top {
        first
    } else if first - top >= height {
        first - height + 1
    } else {
        top
    }
}
