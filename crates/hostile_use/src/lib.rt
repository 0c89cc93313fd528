//! Tests of hostile use, across the crates below: processes that stop for good, malicious scripts,
//! ends that fail, and objects that are refused memory.
#![tactic(auto)]

#[cfg(test)]
mod ends;
#[cfg(test)]
mod failing_ends;
#[cfg(test)]
mod scarce;
#[cfg(test)]
mod scarce_seats;
#[cfg(test)]
mod scripts;
#[cfg(test)]
mod stopped;
