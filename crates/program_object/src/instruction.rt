//! The instructions of a program.

/// Words that an instruction loads from.
#[derive(Clone, Copy, Debug, PartialEq, Eq)]
pub enum Area {
    /// The state.
    State,
    /// The invocation of the call.
    Invocation,
    /// The reply, as the call has written it so far.
    Reply,
}

/// The place of a word in its area, from 0.
#[derive(Clone, Copy, Debug, PartialEq, Eq)]
pub enum Place {
    /// This place.
    Fixed(u64),
    /// The place that this register has.
    By(u64),
}

/// Arithmetic whose result may be no number of 64 bits.
#[derive(Clone, Copy, Debug, PartialEq, Eq)]
pub enum Checked {
    /// The sum.
    Add,
    /// The left one less the right one.
    Subtract,
    /// The product.
    Multiply,
    /// The left one divided by the right one, rounded down.
    Divide,
    /// What that division leaves.
    Remainder,
}

/// Arithmetic modulo 2^64.
#[derive(Clone, Copy, Debug, PartialEq, Eq)]
pub enum Modular {
    /// The sum.
    Sum,
    /// The left one less the right one.
    Difference,
    /// The product.
    Product,
}

/// A comparison of two registers.
#[derive(Clone, Copy, Debug, PartialEq, Eq)]
pub enum Test {
    /// It always holds.
    Always,
    /// They have the same number.
    Equal,
    /// They have different ones.
    NotEqual,
    /// The left one has less than the right one.
    Less,
    /// The left one has at most what the right one has.
    AtMost,
}

/// An instruction. After it the program goes on at the next one, where nothing else is said.
///
/// `to`, `value`, `left` and `right` are numbers of registers, from 0 to 15, where nothing else is said. A place to go
/// on at is an instruction's number, from 0; the number of all instructions ends the call.
#[derive(Clone, Copy, Debug, PartialEq, Eq)]
pub enum Instruction {
    /// The register `to` gets the number `value`.
    Set {
        to: u64,
        value: u64,
    },
    /// The register `to` gets a word; where there is none at that place, it stays, and the program goes on at
    /// `otherwise`.
    Load {
        from: Area,
        at: Place,
        to: u64,
        otherwise: u64,
    },
    /// A word of the state gets what the register `value` has; where there is none at that place, the program goes
    /// on at `otherwise`.
    Store {
        at: Place,
        value: u64,
        otherwise: u64,
    },
    /// A word of the reply gets what the register `value` has; where there is none at that place, the program goes
    /// on at `otherwise`.
    Answer {
        at: Place,
        value: u64,
        otherwise: u64,
    },
    /// The register `to` gets a result; where that is no number of 64 bits, or there is none, since the right one is
    /// 0, it stays, and the program goes on at `otherwise`.
    Compute {
        by: Checked,
        to: u64,
        left: u64,
        right: u64,
        otherwise: u64,
    },
    /// The register `to` gets a result modulo 2^64.
    Wrap {
        by: Modular,
        to: u64,
        left: u64,
        right: u64,
    },
    /// Where the test holds, the program goes on at the later instruction `to`.
    Jump {
        when: Test,
        left: u64,
        right: u64,
        to: u64,
    },
    /// Where the loop of this number, from 0 to 15, has gone back fewer than `most` times in this call, it goes back
    /// to the instruction `back`, which is this one or an earlier one.
    Again {
        back: u64,
        most: u64,
        turn: u64,
    },
}
