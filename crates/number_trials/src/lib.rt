// Tests of the arithmetics on examples, with expected values worked out by hand or by plain integers.
#![tactic(auto)]

#[cfg(test)]
mod checks;
#[cfg(test)]
mod doubles;
#[cfg(test)]
mod exactness;
#[cfg(test)]
mod pairs;
#[cfg(test)]
mod trivial;
