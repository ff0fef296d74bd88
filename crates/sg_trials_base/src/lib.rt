//! Trials of what needs no specification: calls that may answer want of memory have another answer where memory is
//! ample, real files, large values and forests, and vectors from outside.
#![tactic(auto)]

#[cfg(test)]
mod forest;
#[cfg(test)]
mod history;
#[cfg(test)]
mod lexing;
#[cfg(test)]
mod outside;
#[cfg(test)]
mod patterns;
#[cfg(test)]
mod pool;
#[cfg(test)]
mod sets;
