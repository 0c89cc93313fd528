//! Tests of the construction and of what stores its runs: cells and their arenas, laws, worlds and their logs, records
//! and their audit, and the form under a lock, with threads.
#![tactic(auto)]

#[cfg(test)]
mod acts;
#[cfg(test)]
mod arenas;
#[cfg(test)]
mod audits;
#[cfg(test)]
mod cells;
#[cfg(test)]
mod gates;
#[cfg(test)]
mod holds;
#[cfg(test)]
mod laws;
#[cfg(test)]
mod logs;
#[cfg(test)]
mod objects;
#[cfg(test)]
mod records;
#[cfg(test)]
mod rows;
#[cfg(test)]
mod seat_calls;
#[cfg(test)]
mod seats;
#[cfg(test)]
mod texts;
#[cfg(test)]
mod threads;
#[cfg(test)]
mod worlds;
