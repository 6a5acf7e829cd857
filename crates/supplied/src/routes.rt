// A route: an address and a length, with no address bit after the length.
ghost use Rattle.std.specs.Prelude.{◌≡◌, ◌-◌, ◌%◌, ◌^◌, ◌<◌, ◌≤◌};

mod making;

#[derive(Clone, Copy, PartialEq, Eq, Debug)]
pub struct Route {
    address: u32,
    length: u8,
    ghost width: { length ≤ 32 },
    ghost bound: { address < 2 ^ 32 },
    ghost zeros: { address % 2 ^ (32 - length) ≡ 0 },
}
