ghost use Rattle.std.specs.Prelude.{◌≡◌, ◌↔◌, IsTrue};

/// What can be compared by value, so that contracts know that `true` means equal.
pub trait Same {
    fn same(&self, other: &Self) -> bool
        ensures { IsTrue result ↔ (self.now ≡ other.now) };
}

impl Same for u32 {
    fn same(&self, other: &u32) -> bool {
        *self == *other
    }
}
