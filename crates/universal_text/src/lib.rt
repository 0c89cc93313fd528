//! Runs of scripts for C: from the bytes of a script to those of its answers, of its picture, or of its lines.
#![tactic(auto)]

mod draw;
mod replay;
mod status;
mod tell;
