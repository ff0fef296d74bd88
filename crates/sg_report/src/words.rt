// The two names of a word.
ghost use Rattle.std.specs.Prelude.{◌≡◌, ◌==◌, option_map};
ghost use Rattle.std.specs.List.{position};
ghost use Rattle.sg_report.specs.Attrs.{halves};

fn point_of(word: &[u8]) -> Option<usize>
    ensures { result ≡ position (λ b. b == 46) word.now }
{
    word.iter().position(|b| *b == b'.')
}

/// What stands before the first point of a word, and what stands behind it; None exactly where it has no point.
pub fn halves(word: &[u8]) -> Option<(&[u8], &[u8])>
    ensures { option_map (λ h. (h.0.now, h.1.now)) result ≡ halves word.now }
{
    match point_of(word) {
        Some(point) => Some((&word[..point], &word[point + 1..])),
        None => None,
    }
}
