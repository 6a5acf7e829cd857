// The two parts of an address: the bits of a prefix, and the bits after it.
// `length ≤ 32` is asked of callers, since comparing dense filters is what the program is slowest at. Tried: a type that carries
// the bound, with these as methods of the range, runs 20% more instructions there; a form that takes any length runs 6% more.
ghost use Rattle.std.specs.Prelude.{◌≡◌, ◌≤◌};
ghost use Rattle.supplied.specs.Prefixes.{first_bits, bits_after, agree};

// The bits of the address after the first `length`.
pub fn bits_after(address: u32, length: u8) -> u32
    requires { length ≤ 32 }
    ensures { result ≡ bits_after 32 length address }
{
    (u64::from(address) % (1 << (32 - length))) as u32
}

// The first `length` bits of the address.
fn first_bits(address: u32, length: u8) -> u32
    requires { length ≤ 32 }
    ensures { result ≡ first_bits 32 length address }
{
    (u64::from(address) >> (32 - length)) as u32
}

// Whether two addresses agree over the first `length` bits.
pub fn same_prefix(x: u32, y: u32, length: u8) -> bool
    requires { length ≤ 32 }
    ensures { result ≡ agree 32 length x y }
{
    first_bits(x, length) == first_bits(y, length)
}
