//! What pictures of a run have in common, whatever they are drawn with: the run of a script (`subject_of`), the words
//! of its marks, the lines of a text, and the place of each event from left to right. Where nothing else is said, an
//! `Err` says that memory was refused.
#![tactic(auto)]

mod axis;
mod choice;
mod marked;
mod refusals;
mod subject;
mod wording;
mod wrapping;

pub use axis::{
    Axis, MOST_EVENTS, MOST_LANES, Scale, Side, Stretch, axis_of, lanes_between, letters,
};
pub use choice::{Range, RangeFault};
pub use marked::{Mark, Sign, after_events, push_part, push_part_in, signs_of};
pub use refusals::{Told, refused_text, told_of};
pub use subject::{PictureFault, Subject, subject_of, subject_of_object};
pub use wording::{
    any_unchanged, cell_name, cell_state, cell_words, counts_of, kinds_of, label_of, lane_of,
    letter_of, line_of, meaning_of, name_of, push_counted, refusal_of, step_title, title_of,
};
pub use wrapping::{MOST_LINES, push_lines};
