ghost use Rattle.std.specs.Prelude.{◌≡◌, ℕ, ◌<◌};

/// What a node is labelled by: the number of its children, its sort, and the sort of each child.
pub trait Label {
    ghost arity_of: { Self → ℕ };

    ghost sort_of: { Self → ℕ };

    ghost kid_sort_of: { Self → ℕ → ℕ };

    /// How many children the node has.
    fn arity(&self) -> usize
        ensures { result ≡ arity_of self.now };

    /// The sort of the node itself.
    fn sort(&self) -> u32
        ensures { result ≡ sort_of self.now };

    /// The sort of child `k`, counted from 0.
    fn kid_sort(&self, k: usize) -> u32
        requires { k < arity_of self.now }
        ensures { result ≡ kid_sort_of self.now k };
}
