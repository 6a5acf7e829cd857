// Why a region or a point is not made, and the number of each reason.
ghost use Rattle.std.specs.Prelude.{◌≡◌};
ghost use Rattle.supplied.specs.MakeErrors.{number_of};

#[derive(Clone, Copy, PartialEq, Eq, Debug)]
pub enum MakeError {
    LengthAboveWidth = 1,
    AddressBitAfterLength = 2,
    LengthsOutOfOrder = 3,
    LowAboveHigh = 4,
    AboveTop = 5,
}

impl MakeError {
    pub fn number(self) -> u8
        ensures { result ≡ number_of self }
    {
        self as u8
    }
}
