//! The book of scripts.
ghost use Rattle.std.specs.Prelude.{List, ℕ, ◌<◌, ◌≡◌, ◌^◌, map, sum};
ghost use Rattle.ready_objects.specs.Book.{book, book_answer, book_next, book_start};
ghost use Rattle.seq_object.specs.History.{state_after};
ghost use Rattle.small_objects.specs.Book.{IsBook, IsCall, IsReply, book_steady, call_fits, call_in, call_long};
ghost use Rattle.small_objects.specs.Book.{call_of, call_words, reply_fits, reply_in, reply_long, reply_words, spelled};

use crate::row::clear;
use crate::words::Words;
use ready_objects::{Account, Amount, BookInv, BookResp};
use uni_small::SmallObject;

/// The call of this kind, with these accounts and this amount.
fn call_of(kind: u64, from: Account, target: Account, amount: Amount) -> BookInv
    ensures { result ≡ call_of kind from target amount }
{
    match kind {
        0 => BookInv::Deposit(from, amount),
        1 => BookInv::Withdraw(from, amount),
        2 => BookInv::Move(from, target, amount),
        _ => BookInv::Total,
    }
}

#[tactic(auto, using(crate::proofs::Short::four_set))]
impl Words for BookInv {
    ghost words = { 4 };

    ghost encode = { call_words };

    ghost decode = { call_in };

    ghost valid = { IsCall };

    fn count() -> u64 {
        4
    }

    fn store(&self, to: &mut [u64]) {
        let (kind, from, target, amount) = match *self {
            BookInv::Deposit(account, amount) => (0, account.number(), 0, amount.number()),
            BookInv::Withdraw(account, amount) => (1, account.number(), 0, amount.number()),
            BookInv::Move(from, target, amount) => (
                2,
                from.number(),
                target.number(),
                amount.number(),
            ),
            BookInv::Total => (3, 0, 0, 0),
        };
        to[0] = kind;
        to[1] = from as u64;
        to[2] = target as u64;
        to[3] = amount;
    }

    fn load(from: &[u64]) -> BookInv {
        let Some(first) = Account::new(from[1]) else {
            return BookInv::Total;
        };
        let Some(second) = Account::new(from[2]) else {
            return BookInv::Total;
        };
        let Some(amount) = Amount::new(from[3]) else {
            return BookInv::Total;
        };
        call_of(from[0], first, second, amount)
    }

    ghost long = { call_long };

    ghost fits = { call_fits };
}

#[tactic(auto, using(crate::proofs::Short::two_set))]
impl Words for BookResp {
    ghost words = { 2 };

    ghost encode = { reply_words };

    ghost decode = { reply_in };

    ghost valid = { IsReply };

    fn count() -> u64 {
        2
    }

    fn store(&self, to: &mut [u64]) {
        let (kind, number) = match *self {
            BookResp::Balance(balance) => (0, balance.number()),
            BookResp::Over => (1, 0),
            BookResp::Short => (2, 0),
            BookResp::Moved => (3, 0),
            BookResp::Sum(sum) => (4, sum),
        };
        to[0] = kind;
        to[1] = number;
    }

    fn load(from: &[u64]) -> BookResp {
        match from[0] {
            0 => Amount::new(from[1]).map_or(BookResp::Over, BookResp::Balance),
            2 => BookResp::Short,
            3 => BookResp::Moved,
            4 => BookResp::Sum(from[1]),
            _ => BookResp::Over,
        }
    }

    ghost long = { reply_long };

    ghost fits = { reply_fits };
}

/// The book of scripts, of sixteen accounts. Its state is their balances.
#[derive(Clone, Copy, Debug, Drop)]
pub struct SmallBook;

/// Puts an amount into an account.
fn deposit(balances: &mut [u64], account: Account, amount: Amount) -> BookResp
    requires { IsBook balances.old }
    ensures balances { balances.new ≡ book_next balances.old (BookInv.Deposit account amount) }
    ensures response { result ≡ book_answer balances.old (BookInv.Deposit account amount) }
{
    let place = account.number();
    let Some(balance) = Amount::new(balances[place] + amount.number()) else {
        return BookResp::Over;
    };
    balances[place] = balance.number();
    BookResp::Balance(balance)
}

/// Takes an amount out of an account.
fn withdraw(balances: &mut [u64], account: Account, amount: Amount) -> BookResp
    requires { IsBook balances.old }
    ensures balances { balances.new ≡ book_next balances.old (BookInv.Withdraw account amount) }
    ensures response { result ≡ book_answer balances.old (BookInv.Withdraw account amount) }
{
    let place = account.number();
    let Some(before) = Amount::new(balances[place]) else {
        unreachable!()
    };
    let Some(balance) = before.checked_sub(amount) else {
        return BookResp::Short;
    };
    balances[place] = balance.number();
    BookResp::Balance(balance)
}

/// The sum of the balances.
fn total(balances: &[u64]) -> u64
    requires { sum balances.now < 2 ^ 64 }
    ensures { result ≡ sum balances.now }
{
    balances.iter().sum()
}

/// Takes an amount out of the first account, and puts it into the second.
fn transfer(balances: &mut [u64], from: Account, target: Account, amount: Amount) -> BookResp
    requires { IsBook balances.old }
    ensures balances { balances.new ≡ book_next balances.old (BookInv.Move from target amount) }
    ensures response { result ≡ book_answer balances.old (BookInv.Move from target amount) }
{
    let (source, place) = (from.number(), target.number());
    if balances[source] < amount.number() {
        return BookResp::Short;
    }
    if source == place {
        return BookResp::Moved;
    }
    let balance = balances[place] + amount.number();
    if balance > Amount::GREATEST {
        return BookResp::Over;
    }
    balances[source] -= amount.number();
    balances[place] = balance;
    BookResp::Moved
}

#[tactic(auto, using(crate::proofs::Books::is_book))]
impl SmallObject for SmallBook {
    ghost meaning = { λ _. spelled };

    fn width(&self) -> u64 {
        16
    }

    fn invocation_width(&self) -> u64 {
        BookInv::count()
    }

    fn reply_width(&self) -> u64 {
        BookResp::count()
    }

    fn start(&self, state: &mut [u64]) {
        clear(state);
    }

    fn apply(&self, state: &mut [u64], invocation: &[u64], reply: &mut [u64]) {
        let told = match BookInv::load(invocation) {
            BookInv::Deposit(account, amount) => deposit(state, account, amount),
            BookInv::Withdraw(account, amount) => withdraw(state, account, amount),
            BookInv::Move(from, target, amount) => transfer(state, from, target, amount),
            BookInv::Total => BookResp::Sum(total(state)),
        };
        told.store(reply);
    }

    ghost steady = { λ _. book_steady };
}

/// The book on words is the plain one: after invocations in words the words are its balances. The call does nothing:
/// it tells what holds of each list of invocations.
pub fn small_book_follows_plain()
    ensures { (is : List (List ℕ)) → state_after spelled.object book_start is
        ≡ state_after book book_start (map call_in is) }
{}
