// Tests of the library on examples, with expected values worked out by hand from the formats.
#![tactic(auto)]

#[cfg(test)]
mod granted;
#[cfg(test)]
mod parts;
#[cfg(test)]
mod refused;
#[cfg(test)]
mod sheets;
