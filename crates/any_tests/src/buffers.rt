//! Values that one party writes and another takes, under the rule that asks nothing and tells nothing.
ghost use Rattle.std.specs.Prelude.{◌≡◌, IfOk, ⊤};
ghost use Rattle.triple_buffers.specs.Parties.{IsPartyOf, number_of, parties_of, words_of};

use atomic_table::Split;
use std::alloc::{AllocError, Global};
use std::process::Abort;
use std::test::Fail;
use std::thread;
use std::thread::Threads;
use triple_buffers::{BufferRule, Buffers, Layout, Party, TakePlay, WordPlay, WritePlay};

/// The rule that asks nothing and tells nothing.
struct Free;

impl BufferRule<u64, (), ()> for Free {
    ghost holds = { λ key contents. ⊤ };

    ghost first = { λ key. tt };
}

impl WordPlay<()> for Free {
    ghost then = { λ first second v found w. ⊤ };
}

impl WritePlay<u64, ()> for Free {
    ghost then = { λ v to x w. ⊤ };
}

impl TakePlay<u64, ()> for Free {
    ghost then = { λ v from found w. ⊤ };
}

impl Split<()> for Free {
    ghost left = { λ v. v };

    ghost right = { λ v. v };
}

type Numbers = Buffers<u64, (), (), Free>;

/// Two parties, and one word.
fn opened(alloc: Global) -> Result<(Numbers, Party<u64, ()>, Party<u64, ()>), AllocError>
    ensures { IfOk result (λ made. IsPartyOf made.0 made.1 × IsPartyOf made.0 made.2 × (parties_of made.0 ≡ 2)
        × (words_of made.0 ≡ 1) × (number_of made.1 ≡ 0) × (number_of made.2 ≡ 1)) }
{
    let layout = Layout {
        words: 1,
        parties: 2,
    };
    let (numbers, mut parties) = Buffers::open(alloc, layout, ())?;
    let first = numbers.next_party::<Free>(alloc, &mut parties)?;
    let second = numbers.next_party::<Free>(alloc, &mut parties)?;
    Ok((numbers, first, second))
}

/// A value takes the place of one that wasn't taken, and is taken once.
#[test]
fn the_last_value_is_taken_once(rt: HostRuntime) -> Result<(), Fail> {
    let (numbers, mut first, mut second) = opened(rt.alloc())?;
    assert!(rt; numbers.take::<Free>(&mut second, 0) == None);
    assert!(rt; numbers.write::<Free>(&mut first, 1, 7) == None);
    assert!(rt; numbers.write::<Free>(&mut first, 1, 8) == None);
    assert!(rt; numbers.write::<Free>(&mut first, 1, 9) == Some(7));
    assert!(rt; numbers.take::<Free>(&mut second, 0) == Some(9));
    assert!(rt; numbers.take::<Free>(&mut second, 0) == None);
    assert!(rt; numbers.write::<Free>(&mut first, 1, 10) == Some(8));
    assert!(rt; numbers.take::<Free>(&mut second, 1) == None);
    assert!(rt; numbers.take::<Free>(&mut second, 0) == Some(10));
    Ok(())
}

/// A party has a buffer for itself.
#[test]
fn a_buffer_for_oneself(rt: HostRuntime) -> Result<(), Fail> {
    let (numbers, mut first, _second) = opened(rt.alloc())?;
    assert!(rt; numbers.write::<Free>(&mut first, 0, 3) == None);
    assert!(rt; numbers.take::<Free>(&mut first, 0) == Some(3));
    assert!(rt; numbers.take::<Free>(&mut first, 0) == None);
    Ok(())
}

/// A word is 0 at first, and an exchange that finds another number leaves it.
#[test]
fn a_word(rt: HostRuntime) -> Result<(), Fail> {
    let (numbers, mut first, mut second) = opened(rt.alloc())?;
    assert!(rt; numbers.load::<Free>(&mut first, 0) == 0);
    assert!(rt; numbers.compare_exchange::<Free>(&mut first, 0, 0, 5) == 0);
    assert!(rt; numbers.compare_exchange::<Free>(&mut second, 0, 0, 6) == 5);
    assert!(rt; numbers.load::<Free>(&mut second, 0) == 5);
    Ok(())
}

/// At the closing there is what was written last for the party that closes and wasn't taken, and each word.
#[test]
fn what_is_closed(rt: HostRuntime) -> Result<(), Fail> {
    let (numbers, mut first, second) = opened(rt.alloc())?;
    numbers.write::<Free>(&mut first, 1, 7);
    numbers.write::<Free>(&mut first, 1, 8);
    numbers.write::<Free>(&mut first, 0, 9);
    numbers.compare_exchange::<Free>(&mut first, 0, 0, 5);
    let closed = numbers.close_with(second);
    assert!(rt; closed.word(0) == 5);
    assert!(rt; closed.take(0) == Some(8));
    Ok(())
}

/// What was taken isn't there at the closing, nor what another party wrote.
#[test]
fn what_was_taken_is_not_closed(rt: HostRuntime) -> Result<(), Fail> {
    let (numbers, mut first, mut second) = opened(rt.alloc())?;
    numbers.write::<Free>(&mut first, 1, 7);
    assert!(rt; numbers.take::<Free>(&mut second, 0) == Some(7));
    drop(first);
    numbers.write::<Free>(&mut second, 1, 8);
    let closed = numbers.close_with(second);
    assert!(rt; closed.take(0) == None);
    Ok(())
}

/// How many numbers a thread writes.
const NUMBERS: u64 = 20_000;

/// Writes the numbers from 1 on.
fn writes(numbers: &Numbers, mut party: Party<u64, ()>)
    requires { IsPartyOf numbers.now party × (parties_of numbers.now ≡ 2) }
{
    for number in 0..NUMBERS {
        numbers.write::<Free>(&mut party, 1, number + 1);
    }
}

/// Takes until the last number comes: whether each was greater than that before.
fn takes(numbers: &Numbers, mut party: Party<u64, ()>) -> bool
    requires { IsPartyOf numbers.now party × (parties_of numbers.now ≡ 2) }
{
    let mut last = 0;
    for _ in 0..4_000_000_000u64 {
        if last == NUMBERS {
            return true;
        }
        if let Some(number) = numbers.take::<Free>(&mut party, 0) {
            if number <= last {
                return false;
            }
            last = number;
        }
    }
    false
}

/// What one thread takes of another's numbers rises, and the last one comes.
#[test]
fn numbers_of_another_thread_rise(rt: HostRuntime) -> Result<(), Fail> {
    let (numbers, first, second) = opened(rt.alloc())?;
    let (_, rising) = thread::join(
        &rt,
        || -> ()
            requires { IsPartyOf numbers first × (parties_of numbers ≡ 2) }
        { writes(&numbers, first) },
        || -> bool
            requires { IsPartyOf numbers second × (parties_of numbers ≡ 2) }
        { takes(&numbers, second) },
    );
    assert!(rt; rising);
    Ok(())
}
