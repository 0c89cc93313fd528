//! Tests of `uni_any`, objects whose states have memory of their own, that threads share without a lock; and of `triple_buffers`,
//! on which it stands.
#![tactic(auto)]

#[cfg(test)]
mod buffers;
#[cfg(test)]
mod calls;
#[cfg(test)]
mod closing;
#[cfg(test)]
mod refusals;
#[cfg(test)]
mod seats;
#[cfg(test)]
mod threads;
