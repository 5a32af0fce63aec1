// The plan of a factorization: which places are filled, which columns each column awaits, and in which order they are taken.
#![tactic(auto)]

mod fills;
mod levels;
mod matrices;
mod patterns;
mod tables;
