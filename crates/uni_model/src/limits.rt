//! The limits of the construction in code, and the most own steps that a call can take.

ghost use Rattle.std.specs.Prelude.{◌≡◌, ◌≤◌};
ghost use Rattle.uni_model.specs.Bound.{most_steps as most};
ghost use Rattle.uni_model.specs.declared.limits.TheConstants.{MAX_PROCESSES};

/// The greatest number of processes; the least is 1.
pub const MAX_PROCESSES: u64 = 64;

/// The greatest number of calls of a process in an era; the least is 1.
pub const MAX_ROW: u64 = 4096;

/// The greatest number of a cell, 2^48 - 1.
pub const MAX_SEQ: u64 = 281_474_976_710_655;

/// The number of own steps by which a call has returned that began among `n` processes:
/// 10n + 12. `n` is at most `MAX_PROCESSES`.
pub fn most_steps(n: u64) -> u64
    requires { n ≤ MAX_PROCESSES }
    ensures { result ≡ most n }
{
    10 * n + 12
}
