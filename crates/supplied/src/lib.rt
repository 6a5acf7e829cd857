// The families of regions and the action kinds that the product supplies.
#![tactic(auto)]

mod actions;
mod edges;
mod errors;
mod pairs;
mod prefixes;
mod ranges;
mod routes;
mod spans;

pub use actions::{RouteAction, Verdict};
pub use errors::MakeError;
pub use pairs::{Packet, Pair, RouteWithOrigin};
pub use ranges::PrefixRange;
pub use routes::Route;
pub use spans::{AddressSpan, AsSpan, PortSpan, ProtocolSpan, Span, SpanPoint};

#[cfg(test)]
mod tests;
