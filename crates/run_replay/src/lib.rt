//! The replay of a run: its scenes, and the marks of a picture of it, as plain data.
//!
//! A scene tells what an event did to the memory, and the whole memory after it where that is asked for: `scene_of` of
//! `specs/Scenes.antt`. Marks are what a picture shows of the events: `marks_of_run` of `specs/Marks.antt`. What holds
//! of both in each run, and that no place changes but those that scenes tell, stands in `laws`.
//!
//! Where nothing else is said, an `Err` says that memory was refused.
#![tactic(auto)]

mod frame;
mod laws;
mod marking;
mod marks;
mod places;
mod scenes;
mod whole;

pub use frame::{Begun, Change, EndedEra, Field, Frame, Held, Scene, Start, Step, changes_of};
pub use laws::{
    bars_have_the_replies, dots_are_the_log, dots_lie_in_bars, ends_leave_one_anchor,
    scenes_tell_each_event, steps_change_one_place,
};
pub use marking::marks_of;
pub use marks::{Bar, BarEnd, CellBox, Dot, Era, EraEnd, EraLine, Marks, StepMark};
pub use places::{cell_text, field_name};
pub use scenes::{Scenes, begun_of, excerpt_of, step_of};
