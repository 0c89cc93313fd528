//! The objects of scripts as objects of several words.

use crate::small::told_by_one;
use ready_objects::{
    Account, Amount, BookInv, BookResp, QueueInv, QueueResp, StickyInv, StickyObject, StickyResp,
};
use small_objects::{Encoded, SmallBook, SmallScriptQueue};
use std::process::Abort;

/// The amount of this number.
fn amount(rt: &impl Abort, number: u64) -> Amount {
    let Some(amount) = Amount::new(number) else {
        panic!(rt; "no amount {number}")
    };
    amount
}

/// The account of this number.
fn account(rt: &impl Abort, number: u64) -> Account {
    let Some(account) = Account::new(number) else {
        panic!(rt; "no account {number}")
    };
    account
}

#[test]
fn a_sticky_register(rt: HostRuntime) {
    let object = Encoded {
        object: StickyObject,
    };
    let (zero, nine) = (amount(&rt, 0), amount(&rt, 9));
    let rows = [
        (StickyInv::Read, StickyResp::Unset),
        (StickyInv::Stick(zero), StickyResp::Settled(zero)),
        (StickyInv::Stick(nine), StickyResp::Settled(zero)),
        (StickyInv::Read, StickyResp::Settled(zero)),
    ];
    let shared = told_by_one(&rt, rt.alloc(), object, &rows);
    let mut state = [7; 2];
    assert!(rt; shared.width() == 2);
    shared.close(&mut state);
    assert!(rt; state == [1, 0]);
}

#[test]
fn a_book(rt: HostRuntime) {
    let (first, last) = (account(&rt, 0), account(&rt, 15));
    let (zero, one) = (amount(&rt, 0), amount(&rt, 1));
    let (three, five) = (amount(&rt, 3), amount(&rt, 5));
    let most = amount(&rt, Amount::GREATEST);
    let rows = [
        (BookInv::Deposit(last, five), BookResp::Balance(five)),
        (BookInv::Deposit(last, most), BookResp::Over),
        (BookInv::Withdraw(first, three), BookResp::Short),
        (BookInv::Move(last, first, three), BookResp::Moved),
        (BookInv::Withdraw(first, three), BookResp::Balance(zero)),
        (BookInv::Deposit(first, most), BookResp::Balance(most)),
        (BookInv::Move(last, first, one), BookResp::Over),
        (BookInv::Move(first, first, most), BookResp::Moved),
        (BookInv::Move(last, first, three), BookResp::Short),
        (BookInv::Total, BookResp::Sum(1_000_000_000_001)),
    ];
    told_by_one(&rt, rt.alloc(), SmallBook, &rows);
}

#[test]
fn a_queue_of_scripts(rt: HostRuntime) {
    let (zero, most) = (amount(&rt, 0), amount(&rt, Amount::GREATEST));
    let rows = [
        (QueueInv::Deq, QueueResp::Empty),
        (QueueInv::Enq(zero), QueueResp::Added),
        (QueueInv::Enq(most), QueueResp::Added),
        (QueueInv::Enq(zero), QueueResp::Full),
        (QueueInv::Deq, QueueResp::Taken(zero)),
        (QueueInv::Deq, QueueResp::Taken(most)),
        (QueueInv::Deq, QueueResp::Empty),
    ];
    told_by_one(&rt, rt.alloc(), SmallScriptQueue { capacity: 2 }, &rows);
}
