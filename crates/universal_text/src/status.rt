//! What a call answers.

/// The text is written.
pub const DONE: u32 = 0;

/// The script has a fault, whose line is written.
pub const BAD_SCRIPT: u32 = 1;

/// There is less room than the text takes, and nothing is written.
pub const SMALL: u32 = 2;

/// Memory was refused, and nothing is written.
pub const MEMORY: u32 = 3;

/// The number of events isn't from 1 to 16,777,216, and nothing is written.
pub const BAD_HISTORY: u32 = 4;

/// The drawing of the script's run does not show it, and nothing is written. No script is known to come to this.
pub const MISDRAWN: u32 = 5;
