// Making a prefix range and reading its numbers.
ghost use Rattle.std.specs.Prelude.{◌≡◌};
ghost use Rattle.supplied.specs.MadeRanges.{made_range};

use super::PrefixRange;
use crate::errors::MakeError;
use crate::routes::Route;

impl PrefixRange {
    pub fn new(address: u32, length: u8, low: u8, high: u8) -> Result<PrefixRange, MakeError>
        ensures { result ≡ made_range address length low high }
    {
        let prefix = Route::new(address, length)?;
        if low < length || high < low || high > 32 {
            return Err(MakeError::LengthsOutOfOrder);
        }
        Ok(PrefixRange {
            address: prefix.address(),
            length: prefix.length(),
            low,
            high,
        })
    }

    pub fn address(self) -> u32
        ensures { result ≡ self.address }
    {
        self.address
    }

    pub fn length(self) -> u8
        ensures { result ≡ self.length }
    {
        self.length
    }

    pub fn low(self) -> u8
        ensures { result ≡ self.low }
    {
        self.low
    }

    pub fn high(self) -> u8
        ensures { result ≡ self.high }
    {
        self.high
    }
}
