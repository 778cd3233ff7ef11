//! What a walk looks for.
ghost use Rattle.std.specs.Prelude.{◌≡◌, ℕ, Bool};

/// A set of keys, and which boxes may hold some of them.
pub trait Region {
    // whether the box of these corners may hold a key of the region
    ghost meets_box: { Self → ℕ → ℕ → Bool };

    // whether the key is of the region
    ghost has_key: { Self → ℕ → Bool };

    /// Whether a branch with these corners is to be followed.
    fn meets(&self, low: u64, high: u64) -> bool
        ensures { result ≡ meets_box self.now low high };

    /// Whether the key is of the region.
    fn has(&self, key: u64) -> bool
        ensures { result ≡ has_key self.now key };
}
