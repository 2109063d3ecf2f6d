// Why a call was refused, and the number by which it says so.
ghost use Rattle.std.specs.Prelude.{◌≡◌};

/// Why a call was refused. A refused call changes nothing. Outside the program its number stands for it.
#[derive(Clone, Copy, PartialEq, Eq, Debug)]
pub enum Refusal {
    /// The section of the key holds as many values as it has room for.
    Full = 1,
    /// The rank exceeds the length of the key's sequence.
    PastEnd = 6,
}

impl From<Refusal> for u8 {
    ghost use Rattle.chains.specs.Numbers.{number_of};

    ghost from_gives = { λ refusal number. number ≡ number_of refusal };

    fn from(refusal: Refusal) -> u8 {
        refusal as u8
    }
}
