// Comparisons of drawn filters, checked point by point.
#![tactic(auto)]

#[cfg(test)]
mod draws;
#[cfg(test)]
mod filters;
#[cfg(test)]
mod listings;
#[cfg(test)]
mod origins;
#[cfg(test)]
mod packets;
#[cfg(test)]
mod trials;
