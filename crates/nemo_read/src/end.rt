use nemo_value::NoMemory;

/// Why a part of a value can't be read: it has not its form, or no memory was left.
#[derive(Clone, Copy)]
pub enum PartEnd {
    Malformed,
    NoMemory,
}

impl From<NoMemory> for PartEnd {
    ghost use Rattle.std.specs.Prelude.{◌≡◌};
    ghost use Rattle.nemo_read.specs.declared.end.PartEnd.TheVariants.{NoMemory};

    ghost from_gives = { λ _ e. e ≡ NoMemory };

    fn from(_e: NoMemory) -> PartEnd {
        PartEnd::NoMemory
    }
}
