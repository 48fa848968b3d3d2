//! Tests of inputs that are cut off, of devices that fail and of watchers that object, as tables. Nothing is built on
//! this crate.
#![tactic(auto)]

#[cfg(test)]
mod cut_off;
#[cfg(test)]
mod cut_off_drills;
#[cfg(test)]
mod devices;
#[cfg(test)]
mod objections;
