ghost use Rattle.std.specs.Prelude.{◌≡◌, ℕ, ◌+◌, ◌<◌, ◌≤◌, ◌^◌, ◌==◌, Bool, true, if◌then◌else◌, MatchResult, IfOk, OnOk, OnErr};
ghost use Rattle.std.specs.List.{list_any};
ghost use Rattle.b1_model.specs.declared.answers.Quantity.{Quantity as Quantities};
ghost use Rattle.b1_model.specs.declared.answers.Quantity.TheVariants.{Entries, Bytes, Handles};
ghost use Rattle.b1_model.specs.MachineTables.{within_quota};
ghost use Rattle.b1_quota.specs.Accounts.{amount_in, charged_to, own as own_charge, with_charge, plus, minus, cleared, users_of, has_account, total, IsDistinct};
ghost use Rattle.b1_quota.specs.Charges.{over as refusal_of, refusal};

use crate::accounts::{
    Account, Shares, amount, charge_less, charge_more, clear, limit, open_account, shares_of,
};
use b1_model::{Charge, Limits, Quantity};
use std::alloc::{AllocError, Global};
use std::marker::Model;

/// A charge that a quota refuses: the first quantity that fails.
#[derive(Clone, Copy, Debug, PartialEq, Eq)]
pub struct Over {
    /// The quantity.
    pub what: Quantity,
    /// What the user is charged of it already.
    pub own: u64,
    /// What all other users are charged of it.
    pub others: u64,
    /// The limit on it.
    pub limit: u32,
    /// How much more was asked.
    pub asked: u32,
}

/// What each user is charged at a peer, and the limits on it.
///
/// A quantity's charge passes while the user's doubled charge and all other users' charges stay within the limit; the
/// peer's own user's counts once. So one foreign user fills half of what the others leave.
#[derive(Debug, Drop)]
pub struct Quota {
    limits: Limits,
    home: u32,
    accounts: Vec<Account>,
}

impl Model for Quota {
    ghost use Rattle.b1_quota.specs.Accounts.{IsSound};
    ghost use Rattle.b1_quota.specs.Charges.{Charges};

    ghost Value = { Charges };

    ghost view = { λ q. record { limits = q.limits; home = q.home; accounts = q.accounts.items } };

    ghost invariant = { λ q. IsSound q.accounts.items };
}

impl Quota {
    /// A quota with nothing charged. `home` is the peer's own user. A user who stands several times in `users` has one
    /// account. An error is want of memory.
    pub fn make(
        alloc: Global,
        limits: Limits,
        home: u32,
        users: &[u32],
    ) -> Result<Quota, AllocError>
        ensures limits { IfOk result (λ q. q.limits ≡ limits) }
        ensures home { IfOk result (λ q. q.home ≡ home) }
        ensures users { IfOk result (λ q. (user : ℕ)
            → has_account user q.accounts ≡ list_any (λ u. u == user) users.now) }
        ensures distinct { IfOk result (λ q. IsDistinct q.accounts) }
        ensures nothing_charged { IfOk result (λ q. (what : Quantities) (passes : ℕ → Bool)
            → charged_to what passes q.accounts ≡ 0) }
    {
        let mut accounts = Vec::new(alloc);
        for user in users {
            open_account(&mut accounts, *user)?;
        }
        Ok(Quota {
            limits,
            home,
            accounts,
        })
    }

    /// The limits.
    pub fn limits(&self) -> Limits
        ensures { result ≡ self.now.limits }
    {
        self.limits
    }

    /// The peer's own user.
    pub fn home(&self) -> u32
        ensures { result ≡ self.now.home }
    {
        self.home
    }

    /// Why `charge` would refuse a charge; `None` where it would not.
    pub fn over(&self, user: u32, asked: Charge) -> Option<Over>
        ensures { result ≡ refusal self.now user asked }
    {
        if let Err(over) = self.check(user, &asked, Quantity::Entries) {
            return Some(over);
        }
        if let Err(over) = self.check(user, &asked, Quantity::Bytes) {
            return Some(over);
        }
        match self.check(user, &asked, Quantity::Handles) {
            Ok(()) => None,
            Err(over) => Some(over),
        }
    }

    /// Charges a user. An error names the first quantity that fails, of entries, bytes and handles, and leaves all as it
    /// was. A quantity of which nothing is asked never fails.
    pub fn charge(&mut self, user: u32, asked: Charge) -> Result<(), Over>
        requires { has_account user self.old.accounts ≡ true }
        ensures refused { MatchResult result (λ _. refusal self.old user asked
            ≡ None) (λ over. refusal self.old user asked ≡ Some over) }
        ensures charged { OnOk result (self.new
            ≡ record self.old { accounts = with_charge user (plus asked) self.old.accounts }) }
        ensures unchanged { OnErr result (self.new ≡ self.old) }
        ensures amounts { OnOk result ((what : Quantities) (passes : ℕ → Bool)
            → charged_to what passes self.new.accounts
            ≡ charged_to what passes self.old.accounts + (if passes user then amount_in what asked
            else 0)) }
        ensures users { users_of self.new.accounts ≡ users_of self.old.accounts }
    {
        self.check(user, &asked, Quantity::Entries)?;
        self.check(user, &asked, Quantity::Bytes)?;
        self.check(user, &asked, Quantity::Handles)?;
        charge_more(&mut self.accounts, user, &asked);
        Ok(())
    }

    /// Whether a quantity of a charge passes.
    fn check(&self, user: u32, asked: &Charge, what: Quantity) -> Result<(), Over>
        ensures refused { MatchResult result (λ _. refusal_of self.now user asked.now what
            ≡ None) (λ over. refusal_of self.now user asked.now what ≡ Some over) }
        ensures fits { OnOk result
            (total what self.now.accounts + amount_in what asked.now < 2 ^ 32) }
    {
        let limit = limit(&self.limits, what);
        let shares = shares_of(&self.accounts, user, what);
        let asked = amount(asked, what);
        if passes(user == self.home, shares, limit, asked) {
            return Ok(());
        }
        Err(Over {
            what,
            own: shares.own,
            others: shares.others,
            limit,
            asked,
        })
    }

    /// Takes back what a user was charged.
    pub fn discharge(&mut self, user: u32, asked: Charge)
        requires user { has_account user self.old.accounts ≡ true }
        requires entries { asked.entries ≤ own_charge Entries user self.old.accounts }
        requires bytes { asked.bytes ≤ own_charge Bytes user self.old.accounts }
        requires handles { asked.handles ≤ own_charge Handles user self.old.accounts }
        ensures discharged { self.new
            ≡ record self.old { accounts = with_charge user (minus asked) self.old.accounts } }
        ensures amounts { (what : Quantities) (passes : ℕ → Bool)
            → charged_to what passes self.new.accounts + (if passes user then amount_in what asked
            else 0) ≡ charged_to what passes self.old.accounts }
        ensures users { users_of self.new.accounts ≡ users_of self.old.accounts }
    {
        charge_less(&mut self.accounts, user, &asked);
    }

    /// Sets new limits, and leaves all charges, also those that are above a new limit: of a quantity that is, more is
    /// refused until enough was taken back.
    pub fn limit(&mut self, limits: Limits)
        ensures { self.new ≡ record self.old { limits = limits } }
    {
        self.limits = limits;
    }

    /// Charges nobody anything, under new limits.
    pub fn flush(&mut self, new_limits: Limits)
        ensures flushed { self.new ≡ record {
          limits = new_limits;
          home = self.old.home;
          accounts = cleared self.old.accounts;
        } }
        ensures nothing_charged { (what : Quantities) (passes : ℕ → Bool)
            → charged_to what passes self.new.accounts ≡ 0 }
        ensures users { users_of self.new.accounts ≡ users_of self.old.accounts }
    {
        clear(&mut self.accounts);
        self.limits = new_limits;
    }
}

/// Whether a quantity passes: nothing asked does, the peer's own user may fill what is left, and another user half of
/// what is left to it.
fn passes(is_home: bool, shares: Shares, limit: u32, asked: u32) -> bool
    requires { shares.own + shares.others < 2 ^ 32 }
    ensures { result ≡ within_quota is_home shares.own shares.others limit asked }
{
    let own = shares.own + u64::from(asked);
    let weight = if is_home { own } else { 2 * own };
    asked == 0 || weight + shares.others <= u64::from(limit)
}
