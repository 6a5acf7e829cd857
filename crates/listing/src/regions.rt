// A region as text: dotted address, slash, prefix length, blank, low, hyphen, high.
ghost use Rattle.buffers.specs.Outputs.{Puts};
ghost use Rattle.listing.specs.Regions.{address_text, region_text};

use crate::octets::put_octet;
use buffers::Output;
use supplied::PrefixRange;

// Octet by octet, as the definition has it: in a loop the first, with no dot before it, would stand apart.
fn put_address(out: &mut Output, address: u32)
    ensures { Puts out.old (address_text address) out.new }
{
    let [a, b, c, d] = address.to_be_bytes();
    put_octet(out, a);
    out.put_byte(b'.');
    put_octet(out, b);
    out.put_byte(b'.');
    put_octet(out, c);
    out.put_byte(b'.');
    put_octet(out, d);
}

pub(crate) fn put_region(out: &mut Output, region: PrefixRange)
    ensures { Puts out.old (region_text region) out.new }
{
    put_address(out, region.address());
    out.put_byte(b'/');
    put_octet(out, region.length());
    out.put_byte(b' ');
    put_octet(out, region.low());
    out.put_byte(b'-');
    put_octet(out, region.high());
}
