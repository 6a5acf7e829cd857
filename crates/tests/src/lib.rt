// Tables of examples over the calls that the programs make. What is expected stands in numbers and bytes, as the format has
// them: the tests' own values, and not the names that the crates give them.
#![tactic(auto)]

#[cfg(test)]
mod comparing;
#[cfg(test)]
mod editing;
#[cfg(test)]
mod families;
#[cfg(test)]
mod loading;
#[cfg(test)]
mod printing;
#[cfg(test)]
mod writing;
