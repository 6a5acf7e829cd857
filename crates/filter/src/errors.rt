// Why an edit of a draft is refused.
ghost use Rattle.std.specs.Prelude.{◌≡◌};
ghost use Rattle.filter.specs.EditErrors.{number_of};

#[derive(Clone, Copy, PartialEq, Eq, Debug)]
pub enum EditError {
    // The place is beyond the clauses, or holds none.
    NoSuchPlace = 6,
    // Every usable place is taken, or the memory has no place.
    NoPlaceLeft = 7,
}

impl EditError {
    pub fn number(self) -> u8
        ensures { result ≡ number_of self }
    {
        self as u8
    }
}
