// Making a route and reading its numbers.
ghost use Rattle.std.specs.Prelude.{◌≡◌, ◌-◌, ◌^◌, ◌≤◌};
ghost use Rattle.supplied.specs.Multiples.{cut_down};
ghost use Rattle.supplied.specs.MadeRoutes.{made_route};

use super::Route;
use crate::errors::MakeError;
use crate::prefixes::bits_after;

impl Route {
    pub fn new(address: u32, length: u8) -> Result<Route, MakeError>
        ensures { result ≡ made_route address length }
    {
        if length > 32 {
            return Err(MakeError::LengthAboveWidth);
        }
        if bits_after(address, length) != 0 {
            return Err(MakeError::AddressBitAfterLength);
        }
        Ok(Route { address, length })
    }

    // The address with every bit after the length made zero; `length ≤ 32` is asked for the reason that prefixes.rt gives.
    pub(crate) fn cut(address: u32, length: u8) -> Route
        requires { length ≤ 32 }
        ensures address { result.address ≡ cut_down (2 ^ (32 - length)) address }
        ensures length { result.length ≡ length }
    {
        let address = address - bits_after(address, length);
        Route { address, length }
    }

    pub fn address(self) -> u32
        ensures { result ≡ self.address }
    {
        self.address
    }

    pub fn length(self) -> u8
        ensures { result ≡ self.length }
    {
        self.length
    }
}
