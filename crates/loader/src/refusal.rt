// Why an image isn't loaded.
ghost use Rattle.std.specs.Prelude.{◌≡◌};
ghost use Rattle.inst_decode.specs.Decode as decode;
ghost use Rattle.loader.specs.Refusals.{number_of};

use inst_decode::DecodeError;

// Each has a number, by which a host knows it.
#[derive(Clone, Copy, Debug, PartialEq, Eq)]
pub enum Refusal {
    ImageTooLong = 1,
    UndefinedByte = 2,
    PastEnd = 3,
    NameByte = 4,
    TooManyInstructions = 5,
    TooManyLabels = 6,
    NoStart = 7,
    Native = 8,
    NoRoom = 10,
}

impl From<Refusal> for u8 {
    ghost from_gives = { λ refusal number. number ≡ number_of refusal };

    fn from(refusal: Refusal) -> u8 {
        refusal as u8
    }
}

impl From<DecodeError> for Refusal {
    ghost from_gives = { λ e r. number_of r ≡ decode.number_of e };

    fn from(e: DecodeError) -> Refusal {
        match e {
            DecodeError::Undefined => Refusal::UndefinedByte,
            DecodeError::PastEnd => Refusal::PastEnd,
            DecodeError::BadName => Refusal::NameByte,
        }
    }
}
