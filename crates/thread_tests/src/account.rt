//! An object of one's own: a struct of three numbers, and two functions that store and load it.

ghost use Rattle.std.specs.Prelude.{refl};
ghost use Rattle.thread_tests.specs.Account.{account, account_in, words_of};

use small_objects::StoredObject;

/// An account: what is on it, how often it was paid out, and how often that was refused.
#[derive(Clone, Copy, Debug, Drop)]
pub struct Account {
    pub balance: u64,
    pub paid: u64,
    pub refused: u64,
}

/// An account that is not overdrawn. The invocation `2 * amount` pays in, `2 * amount + 1` out; the reply is
/// the balance before.
#[derive(Clone, Copy, Debug, Drop)]
pub struct AccountObject;

impl StoredObject for AccountObject {
    type State = Account;

    type Call = u64;

    type Reply = u64;

    ghost sequential = { λ o. account };

    ghost encode = { λ o. words_of };

    ghost decode = { λ o. account_in };

    fn width(&self) -> u64 {
        3
    }

    fn start(&self) -> Account {
        Account {
            balance: 0,
            paid: 0,
            refused: 0,
        }
    }

    fn load(&self, words: &[u64]) -> Account {
        Account {
            balance: words[0],
            paid: words[1],
            refused: words[2],
        }
    }

    fn store(&self, account: &Account, words: &mut [u64]) {
        words[0] = account.balance;
        words[1] = account.paid;
        words[2] = account.refused;
    }

    fn apply(&self, account: &mut Account, inv: &u64) -> u64 {
        let before = account.balance;
        let amount = *inv / 2;
        if *inv % 2 == 0 {
            account.balance = before.wrapping_add(amount);
        } else if amount <= before {
            account.balance = before - amount;
            account.paid = account.paid.wrapping_add(1);
        } else {
            account.refused = account.refused.wrapping_add(1);
        }
        before
    }

    ghost steady = { λ o state. refl };

    ghost fits = { λ o state was. refl };
}
