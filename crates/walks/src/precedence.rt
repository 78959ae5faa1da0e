// What a walk goes by.
ghost use Rattle.std.specs.Prelude.{◌≡◌, ℕ, Bool};

// Which item must come before which, and by what number one is chosen where several may come next: the lowest goes first.
pub trait Precedence<T> {
    ghost precedes: { Self → T → T → Bool };

    ghost rank: { Self → T → ℕ };

    fn precedes(&self, one: &T, other: &T) -> bool
        ensures { result ≡ precedes self.now one.now other.now };

    fn rank(&self, item: &T) -> u32
        ensures { result ≡ rank self.now item.now };
}
