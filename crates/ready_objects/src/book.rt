//! A book of sixteen accounts.

ghost use Rattle.std.specs.Prelude.{◌≡◌, ℕ, ◌+◌, ◌≤◌, List, [], ◌∷◌, ◌++◌, OnOk, decimal};
ghost use Rattle.std.specs.Prelude.{sum, length, refl};
ghost use Rattle.ready_objects.specs.declared.book.BookInv.TheVariants.{Deposit, Withdraw, Move, Total};
ghost use Rattle.ready_objects.specs.declared.book.BookResp.TheVariants.{Balance, Over, Short, Moved, Sum};
ghost use Rattle.seq_object.proofs.Cases.{exact_by_cases, other, itself_one, only_one, itself_two, only_two};
ghost use Rattle.seq_object.proofs.Cases.{itself_three, only_three};
ghost use Rattle.ready_objects.specs.Number.{numbers_text};
ghost use Rattle.ready_objects.specs.Book.{book, book_start, book_next, book_answer, book_inv_of_words, book_language};
ghost use Rattle.ready_objects.specs.Book.{HasAccounts, added_by, taken_by, total_added, total_taken};
ghost use Rattle.std.specs.List.{All};
ghost use Rattle.seq_object.specs.History.{state_after};
ghost use Rattle.ready_objects.specs.declared.book.BookInv.{BookInv};

use crate::account::Account;
use crate::number::{Amount, push_number, push_numbers, push_with_number};
use crate::spoken::{Spoken, is_text};
use seq_object::SeqObject;
use std::alloc::{AllocError, Global};
use std::marker::Model;

/// A book of sixteen accounts. All balances are 0 at the start, and none is ever above
/// 999,999,999,999.
#[derive(Clone, Copy, Debug)]
pub struct BookObject;

/// The sixteen balances of a book, by account.
#[derive(Clone, Copy, Debug)]
pub struct BookState {
    balances: [Amount; 16],
}

impl Model for BookState {
    ghost use Rattle.std.specs.Prelude.{ℕ, List};

    ghost Value = { List ℕ };

    ghost view = { λ state. state.balances };

    ghost inverse = { λ balances. record { balances = balances } };
}

/// An invocation of the book.
#[derive(Clone, Copy, Debug, PartialEq, Eq)]
pub enum BookInv {
    /// Puts an amount into an account.
    Deposit(Account, Amount),
    /// Takes an amount out of an account.
    Withdraw(Account, Amount),
    /// Takes an amount out of the first account, and puts it into the second.
    Move(Account, Account, Amount),
    /// Asks for the sum of the balances.
    Total,
}

/// A response of the book.
#[derive(Clone, Copy, Debug, PartialEq, Eq)]
pub enum BookResp {
    /// The balance after an accepted deposit or withdrawal.
    Balance(Amount),
    /// A balance would be above 999,999,999,999, and the book stays as it is.
    Over,
    /// The balance is below the amount, and the book stays as it is.
    Short,
    /// The amount went from the one account to the other.
    Moved,
    /// The sum of the sixteen balances.
    Sum(u64),
}

impl BookState {
    /// The balances after a deposit, and the response.
    fn deposit(mut self, account: Account, amount: Amount) -> (BookState, BookResp)
        ensures balances { result.0 ≡ book_next self (BookInv.Deposit account amount) }
        ensures response { result.1 ≡ book_answer self (BookInv.Deposit account amount) }
    {
        let place = account.number();
        let Some(balance) = self.balances[place].checked_add(amount) else {
            return (self, BookResp::Over);
        };
        self.balances[place] = balance;
        (self, BookResp::Balance(balance))
    }

    /// The balances after a withdrawal, and the response.
    fn withdraw(mut self, account: Account, amount: Amount) -> (BookState, BookResp)
        ensures balances { result.0 ≡ book_next self (BookInv.Withdraw account amount) }
        ensures response { result.1 ≡ book_answer self (BookInv.Withdraw account amount) }
    {
        let place = account.number();
        let Some(balance) = self.balances[place].checked_sub(amount) else {
            return (self, BookResp::Short);
        };
        self.balances[place] = balance;
        (self, BookResp::Balance(balance))
    }

    /// The balances after an amount goes from the one account to the other, and the response.
    fn transfer(mut self, from: Account, to: Account, amount: Amount) -> (BookState, BookResp)
        ensures balances { result.0 ≡ book_next self (BookInv.Move from to amount) }
        ensures response { result.1 ≡ book_answer self (BookInv.Move from to amount) }
    {
        let (source, target) = (from.number(), to.number());
        let Some(left) = self.balances[source].checked_sub(amount) else {
            return (self, BookResp::Short);
        };
        if source == target {
            return (self, BookResp::Moved);
        }
        let Some(grown) = self.balances[target].checked_add(amount) else {
            return (self, BookResp::Over);
        };
        self.balances[source] = left;
        self.balances[target] = grown;
        (self, BookResp::Moved)
    }
}

impl SeqObject for BookObject {
    type State = BookState;

    type Inv = BookInv;

    type Resp = BookResp;

    ghost sequential = { λ _. book };

    fn start(&self, _alloc: Global) -> Result<BookState, AllocError> {
        Ok(BookState {
            balances: [Amount::ZERO; 16],
        })
    }

    fn apply(
        &self,
        _alloc: Global,
        state: &BookState,
        inv: &BookInv,
    ) -> Result<(BookState, BookResp), AllocError> {
        Ok(match *inv {
            BookInv::Deposit(account, amount) => state.deposit(account, amount),
            BookInv::Withdraw(account, amount) => state.withdraw(account, amount),
            BookInv::Move(from, to, amount) => state.transfer(from, to, amount),
            BookInv::Total => (*state, BookResp::Sum(total(&state.balances))),
        })
    }

    fn copy_inv(_alloc: Global, inv: &BookInv) -> Result<BookInv, AllocError> {
        Ok(*inv)
    }

    ghost same_inv = { exact_by_cases _ (elim [
      | Deposit a b ↦ (itself_two a b, elim [ Deposit x y ↦ only_two Deposit a b x y | _ ↦ other ])
      | Withdraw a b ↦ (itself_two a b, elim [ Withdraw x y ↦ only_two Withdraw a b x y | _ ↦ other ])
      | Move a b c ↦ (itself_three a b c, elim [ Move x y z ↦ only_three Move a b c x y z | _ ↦ other ])
      | Total ↦ (refl, elim [ Total ↦ λ e. refl | _ ↦ other ])
    ]) };

    ghost same_resp = { exact_by_cases _ (elim [
      | Balance a ↦ (itself_one a, elim [ Balance x ↦ only_one Balance a x | _ ↦ other ])
      | Over ↦ (refl, elim [ Over ↦ λ e. refl | _ ↦ other ])
      | Short ↦ (refl, elim [ Short ↦ λ e. refl | _ ↦ other ])
      | Moved ↦ (refl, elim [ Moved ↦ λ e. refl | _ ↦ other ])
      | Sum a ↦ (itself_one a, elim [ Sum x ↦ only_one Sum a x | _ ↦ other ])
    ]) };
}

impl Spoken for BookObject {
    ghost language = { book_language };

    ghost state_text = { numbers_text };

    fn read_inv(words: &[&[u8]]) -> Option<BookInv> {
        match words {
            [name] if is_text(name, "total") => Some(BookInv::Total),
            [name, account, amount] => read_at_account(name, account, amount),
            [name, from, to, amount] if is_text(name, "move") => Some(BookInv::Move(
                Account::read(from)?,
                Account::read(to)?,
                Amount::read(amount)?,
            )),
            _ => None,
        }
    }

    fn push_inv(text: &mut Vec<u8>, inv: &BookInv) -> Result<(), AllocError> {
        match *inv {
            BookInv::Deposit(account, amount) => push_at(text, b"deposit ", account, amount),
            BookInv::Withdraw(account, amount) => push_at(text, b"withdraw ", account, amount),
            BookInv::Move(from, to, amount) => {
                push_with_number(text, b"move ", from.number() as u64)?;
                push_at(text, b" ", to, amount)
            }
            BookInv::Total => text.extend_from_slice(b"total"),
        }
    }

    fn push_resp(text: &mut Vec<u8>, resp: BookResp) -> Result<(), AllocError> {
        match resp {
            BookResp::Balance(balance) => push_number(text, balance.number()),
            BookResp::Over => text.extend_from_slice(b"over"),
            BookResp::Short => text.extend_from_slice(b"short"),
            BookResp::Moved => text.extend_from_slice(b"moved"),
            BookResp::Sum(total) => push_number(text, total),
        }
    }

    fn push_state(text: &mut Vec<u8>, state: &BookState) -> Result<(), AllocError> {
        push_numbers(text, &state.balances)
    }

    fn drawn(word: u64) -> BookInv {
        let account = Account::below_sixteen(word / 4);
        let amount = Amount::below_thousand(word / 1024);
        match word % 4 {
            0 => BookInv::Deposit(account, amount),
            1 => BookInv::Withdraw(account, amount),
            2 => BookInv::Move(account, Account::below_sixteen(word / 64), amount),
            _ => BookInv::Total,
        }
    }

    fn reads_back(inv: &BookInv) {
        match *inv {
            BookInv::Deposit(account, amount) => {
                let _ = (account.number(), amount.number());
            }
            BookInv::Withdraw(account, amount) => {
                let _ = (account.number(), amount.number());
            }
            BookInv::Move(from, to, amount) => {
                let _ = (from.number(), to.number(), amount.number());
            }
            BookInv::Total => {}
        }
    }
}

/// The sum of the balances.
fn total(balances: &[Amount]) -> u64
    requires { length balances.now ≤ 16 }
    ensures { result ≡ sum balances.now }
{
    let mut total = 0;
    for balance in balances {
        total += balance.number();
    }
    total
}

/// Writes a word, an account and an amount after a text, with a space before the amount.
///
/// An `Err` says that memory was refused.
fn push_at(
    text: &mut Vec<u8>,
    word: &[u8],
    account: Account,
    amount: Amount,
) -> Result<(), AllocError>
    ensures { OnOk result (text.new.items ≡ text.old.items ++ word.now ++ decimal account ++ 32 ∷ decimal amount) }
{
    push_with_number(text, word, account.number() as u64)?;
    push_with_number(text, b" ", amount.number())
}

/// Reads a deposit or a withdrawal from its three words.
fn read_at_account(name: &[u8], account: &[u8], amount: &[u8]) -> Option<BookInv>
    ensures { result ≡ book_inv_of_words (name.now ∷ account.now ∷ amount.now ∷ []) }
{
    if is_text(name, "deposit") {
        Some(BookInv::Deposit(Account::read(account)?, Amount::read(amount)?))
    } else if is_text(name, "withdraw") {
        Some(BookInv::Withdraw(Account::read(account)?, Amount::read(amount)?))
    } else {
        None
    }
}

/// Every call keeps the law of conservation: the sum of the balances is what accepted deposits
/// added less what accepted withdrawals took, and a move leaves it as it is. No balance is above
/// the greatest amount. The call does nothing: it tells what holds of each list of invocations.
pub fn book_is_conserved()
    ensures each_call { (balances : List ℕ) (inv : BookInv) → length balances ≡ 16 → HasAccounts inv
        → sum (book_next balances inv) + taken_by inv (book_answer balances inv)
        ≡ sum balances + added_by inv (book_answer balances inv) }
    ensures moves { (balances : List ℕ) (a b v : ℕ) → length balances ≡ 16 → HasAccounts (BookInv.Move a b v)
        → sum (book_next balances (BookInv.Move a b v)) ≡ sum balances }
    ensures all_calls { (invs : List BookInv) → All HasAccounts invs
        → sum (state_after book book_start invs) + total_taken book_start invs ≡ total_added book_start invs }
    ensures bounded { (invs : List BookInv) → All (λ balance. balance ≤ 999999999999)
        (state_after book book_start invs) }
{}
