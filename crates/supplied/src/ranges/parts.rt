// The last address of a prefix range, and the part of it that another holds.
ghost use Rattle.std.specs.Prelude.{◌≡◌, ◌+◌, ◌-◌, ◌^◌, ◌≤◌};
ghost use Rattle.supplied.specs.PrefixRanges.{prefix_narrowed};

use super::PrefixRange;
use crate::prefixes::same_prefix;

impl PrefixRange {
    // The last address under the prefix.
    pub(crate) fn last_address(self) -> u32
        ensures { result + 1 ≡ self.address + 2 ^ (32 - self.length) }
    {
        (u64::from(self.address) + (1 << (32 - self.length)) - 1) as u32
    }

    // The meet with a range whose prefix is not longer.
    pub(crate) fn narrowed(self, other: PrefixRange) -> Option<PrefixRange>
        ensures { result ≡ prefix_narrowed self other }
    {
        if !same_prefix(self.address, other.address, other.length) {
            return None;
        }
        let low = self.low.max(other.low);
        let high = self.high.min(other.high);
        if low > high {
            return None;
        }
        // `..self` is refused in a struct with ghost fields.
        Some(PrefixRange {
            address: self.address,
            length: self.length,
            low,
            high,
        })
    }
}
