//! What the course's programs do: goals, which say what an exercise asks of a script, and constructions that are wrong,
//! for teaching.
//!
//! What a line of a goal asks for is `is_met` in `specs/Goals.antt`. A world with a flaw is a plain world of the steps
//! that the page of pseudo-code in `docs/course.md` has. Nothing is promised of what it answers: it is safe, it ends,
//! and what is written of it says first that it is not the proved construction.
#![tactic(auto)]

mod flaw;
mod flawed;
mod judging;
mod lines;
mod list;
mod memory;
mod pattern;
mod reading;
mod steps;
mod text;
mod wish;
mod world;

pub use flaw::Flaw;
pub use flawed::{flawed_text, run_flawed};
pub use judging::{Judgement, answers_to, judge, judgement_text, run_goal, steps_of};
pub use reading::{goal_in, read_text};
