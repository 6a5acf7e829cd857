// A prefix range: the routes under a prefix whose length lies between two ends.
ghost use Rattle.std.specs.Prelude.{◌≡◌, ◌-◌, ◌%◌, ◌^◌, ◌<◌, ◌≤◌};

mod making;
mod parts;
mod questions;

// The prefix is two numbers: a `prefix: Route` field would only lengthen each clause and definition that reads `r.address`, and
// with a model that hides it, a range with a struct inside could not be passed by value twice (tried on a small crate).
#[derive(Clone, Copy, PartialEq, Eq, Debug)]
pub struct PrefixRange {
    address: u32,
    length: u8,
    low: u8,
    high: u8,
    ghost from: { length ≤ low },
    ghost order: { low ≤ high },
    ghost width: { high ≤ 32 },
    ghost bound: { address < 2 ^ 32 },
    ghost zeros: { address % 2 ^ (32 - length) ≡ 0 },
}
