// What a comparison answers: the numbers of what it wrote, or why it declined.
ghost use Rattle.std.specs.Prelude.{◌≡◌};
ghost use Rattle.compare.specs.Declines.{number_of};

// How many regions, rows and holes were written.
#[derive(Clone, Copy, PartialEq, Eq, Debug)]
pub struct Report {
    pub regions: usize,
    pub rows: usize,
    pub holes: usize,
}

#[derive(Clone, Copy, PartialEq, Eq, Debug)]
pub enum Declined {
    TooManyAxes = 8,
    NoRegionPlace = 9,
    NoRowPlace = 10,
    NoHolePlace = 11,
}

impl Declined {
    pub fn number(self) -> u8
        ensures { result ≡ number_of self }
    {
        self as u8
    }
}
