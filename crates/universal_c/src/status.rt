//! What a call answers.

/// The call is done.
pub const DONE: u32 = 0;

/// The number of processes isn't from 1 to 64.
pub const BAD_COUNT: u32 = 1;

/// The number of calls of each process isn't from 1 to 4096.
pub const BAD_ROW: u32 = 2;

/// Memory was refused.
pub const MEMORY: u32 = 3;

/// The seat has made all the calls that it can make.
pub const FULL: u32 = 4;

/// All seats are given out.
pub const NO_SEAT: u32 = 5;

/// Another handle has the log.
pub const BUSY: u32 = 6;

/// The handle hasn't what the call is for.
pub const WRONG_HANDLE: u32 = 7;

/// The tables aren't those of a machine.
pub const BAD_TABLE: u32 = 8;

/// The log has other calls of the process.
pub const DIFFERS: u32 = 9;

/// The object would have too many words.
pub const BAD_CAPACITY: u32 = 10;

/// There aren't as many words as the object has.
pub const BAD_WIDTH: u32 = 11;

/// An instruction has no operation that there is, or not all its words.
pub const NO_OPERATION: u32 = 12;

/// An instruction names a register that isn't below 16.
pub const NO_REGISTER: u32 = 13;

/// The fixed place of an instruction lies outside its area.
pub const NO_PLACE: u32 = 14;

/// An instruction would go on at itself or at an earlier one.
pub const JUMPS_BACK: u32 = 15;

/// An instruction would go on past the end.
pub const NO_TARGET: u32 = 16;

/// A loop would go back to a later instruction.
pub const GOES_FORWARD: u32 = 17;

/// A loop's number isn't below 16.
pub const NO_LOOP: u32 = 18;

/// There are more than 4,096 instructions, or more than 2^32 steps in a call.
pub const TOO_LONG: u32 = 19;

/// Another version came while a read loaded the state. The statuses from 20 to 27 are those of shared memory, which
/// are no part of this crate.
pub const CHANGED: u32 = 28;
