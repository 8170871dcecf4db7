// Refusals: which there are, their numbers, and how a check gives one.
ghost use Rattle.std.specs.Prelude.{◌≡◌};
ghost use Rattle.grid.specs.Refusals.{number_of};
ghost use Rattle.grid.specs.Check.{require};

/// What is refused, by its number in the rules. 15 is not used: no reading can pass 32 bits.
#[derive(Clone, Copy, Debug, PartialEq, Eq)]
pub enum Kind {
    Step = 1,
    Start = 2,
    Count = 3,
    Sample = 4,
    Mesopic = 5,
    Observer = 6,
    Illuminant = 7,
    Reflectance = 8,
    Dark = 9,
    Edition = 10,
    Reserved = 11,
    Length = 12,
    Padding = 13,
    Room = 14,
}

/// A refusal: its kind, and the place of the first faulty sample for SAMPLE and REFLECTANCE, from 0 (else 0, as C has it).
#[derive(Clone, Copy, Debug, PartialEq, Eq)]
pub struct Refusal {
    pub kind: Kind,
    pub place: u32,
}

/// A refusal that has no place.
impl From<Kind> for Refusal {
    ghost use Rattle.std.specs.Prelude.{◌≡◌};
    ghost use Rattle.grid.specs.Check.{refusal};

    ghost from_gives = { λ kind r. r ≡ refusal kind 0 };

    fn from(kind: Kind) -> Refusal {
        Refusal { kind, place: 0 }
    }
}

impl Refusal {
    /// Its number in the rules.
    pub fn number(self) -> u32
        ensures { result ≡ number_of self.kind }
    {
        self.kind as u32
    }
}

/// Nothing where the test holds, else the refusal of this kind.
pub fn require(test: bool, kind: Kind) -> Result<(), Refusal>
    ensures { result ≡ require test kind }
{
    if test { Ok(()) } else { Err(kind.into()) }
}
