//! Tests of the commands beside `mill`, on shelves and sinks in memory: checks, simulations and samples. Anything may be
//! added; nothing is built on this crate.
#![tactic(auto)]

#[cfg(test)]
mod check_refusals;
#[cfg(test)]
mod checks;
#[cfg(test)]
mod samples;
#[cfg(test)]
mod simulations;
