//! Tests of the judge of histories: its verdicts, by hand, the lines that a history can't have, pictures, and words.
#![tactic(auto)]

#[cfg(test)]
mod bad_lines;
#[cfg(test)]
mod objects;
#[cfg(test)]
mod pictures;
#[cfg(test)]
mod recorded;
#[cfg(test)]
mod verdicts;
#[cfg(test)]
mod words;
