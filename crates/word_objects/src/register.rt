//! A register of 31 bits with the usual read-modify-write operations.

ghost use Rattle.std.specs.Prelude.{◌≡◌, ◌<◌, ◌^◌};
ghost use Rattle.word_objects.specs.Register.{register, register_call, value_after, reply_to};
ghost use Rattle.word_objects.specs.declared.register.RegisterCall.{RegisterCall};

use uni_words::WordObject;

/// The number of values of a register, 2^31.
const VALUES: u64 = 2_147_483_648;

/// A call of a register. Its numbers are below 2^31 each.
#[derive(Clone, Copy, Debug, PartialEq, Eq)]
pub enum RegisterCall {
    /// Reads the value, and is answered it.
    Read,
    /// Writes a value, and is answered 0.
    Write(u32),
    /// Writes a value, and is answered the value before.
    Swap(u32),
    /// Adds a number modulo 2^31, and is answered the value before.
    FetchAdd(u32),
    /// Writes a value where it is greater than the register's, and is answered the value before.
    FetchMax(u32),
    /// Writes the second value where the register has the first, and is answered the value before. So
    /// it has written where the reply is the first value.
    CompareExchange(u32, u32),
}

/// A register of 31 bits. It is 0 at the start.
///
/// An invocation is the number that one of the functions below makes of a call. Each other number is
/// a call too: `i / 2^31` is its operation, 1 for a write, 2 for a swap, 3 for a fetch-and-add, 4 for a
/// fetch-and-max and `2^31 + e` for a compare-and-exchange that expects `e`; each other one reads.
/// `i % 2^31` is the value.
#[derive(Clone, Copy, Debug, Drop)]
pub struct WordRegister;

impl WordRegister {
    /// The greatest value of a register.
    pub const GREATEST: u32 = 2_147_483_647;

    /// The invocation that reads.
    pub fn read() -> u64
        ensures { register_call result ≡ RegisterCall.Read }
    {
        0
    }

    /// The invocation that writes a value, up to `GREATEST`.
    pub fn write(value: u32) -> u64
        requires { value < 2 ^ 31 }
        ensures { register_call result ≡ RegisterCall.Write value }
    {
        VALUES + value as u64
    }

    /// The invocation that writes a value, up to `GREATEST`, and is answered the value before.
    pub fn swap(value: u32) -> u64
        requires { value < 2 ^ 31 }
        ensures { register_call result ≡ RegisterCall.Swap value }
    {
        2 * VALUES + value as u64
    }

    /// The invocation that adds a number, up to `GREATEST`, modulo 2^31.
    pub fn fetch_add(number: u32) -> u64
        requires { number < 2 ^ 31 }
        ensures { register_call result ≡ RegisterCall.FetchAdd number }
    {
        3 * VALUES + number as u64
    }

    /// The invocation that writes the greater of the register's value and this one, up to `GREATEST`.
    pub fn fetch_max(value: u32) -> u64
        requires { value < 2 ^ 31 }
        ensures { register_call result ≡ RegisterCall.FetchMax value }
    {
        4 * VALUES + value as u64
    }

    /// The invocation that writes a value where the register has the expected one, both up to
    /// `GREATEST`.
    pub fn compare_exchange(expected: u32, value: u32) -> u64
        requires expected { expected < 2 ^ 31 }
        requires value { value < 2 ^ 31 }
        ensures { register_call result ≡ RegisterCall.CompareExchange expected value }
    {
        (VALUES + expected as u64) * VALUES + value as u64
    }

    /// The call that an invocation makes.
    pub fn call_of(inv: u64) -> RegisterCall
        ensures { result ≡ register_call inv }
    {
        let operation = inv / VALUES;
        let value = (inv % VALUES) as u32;
        match operation {
            1 => RegisterCall::Write(value),
            2 => RegisterCall::Swap(value),
            3 => RegisterCall::FetchAdd(value),
            4 => RegisterCall::FetchMax(value),
            _ if operation >= VALUES => {
                RegisterCall::CompareExchange((operation % VALUES) as u32, value)
            }
            _ => RegisterCall::Read,
        }
    }
}

impl WordObject for WordRegister {
    ghost sequential = { λ _. register };

    fn start(&self) -> u32 {
        0
    }

    fn next(&self, state: u32, inv: u64) -> u32 {
        match WordRegister::call_of(inv) {
            RegisterCall::Read => state,
            RegisterCall::Write(value) | RegisterCall::Swap(value) => value,
            RegisterCall::FetchAdd(number) => ((state as u64 + number as u64) % VALUES) as u32,
            RegisterCall::FetchMax(value) => state.max(value),
            RegisterCall::CompareExchange(expected, value) => {
                if state == expected { value } else { state }
            }
        }
    }

    fn answer(&self, state: u32, inv: u64) -> u32 {
        match WordRegister::call_of(inv) {
            RegisterCall::Write(_) => 0,
            _ => state,
        }
    }
}
