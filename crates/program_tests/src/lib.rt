//! Tests of scripts and of what the programs make of them, where no case says it: schedules, replays whose ends fail,
//! threads, scripts that are typed, worlds with a flaw, graphs of all schedules, and pictures.
#![tactic(auto)]

#[cfg(test)]
mod drawn;
#[cfg(test)]
mod flaws;
#[cfg(test)]
mod graphs;
#[cfg(test)]
mod laws;
#[cfg(test)]
mod layouts;
#[cfg(test)]
mod misdrawn;
#[cfg(test)]
mod pictures;
#[cfg(test)]
mod runs;
#[cfg(test)]
mod schedules;
#[cfg(test)]
mod scripts;
#[cfg(test)]
mod svgs;
#[cfg(test)]
mod typed;
#[cfg(test)]
mod watched;
