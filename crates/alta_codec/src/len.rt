// What has members and lends no slice of them.
ghost use Rattle.std.specs.Prelude.{◌≡◌, ℕ};

/// What has members, and lends no slice of them.
pub trait Len {
    /// How many members a value has.
    ghost len_of: { Self → ℕ };

    /// How many members there are.
    fn len(&self) -> usize
        ensures { result ≡ len_of self.now };
}
