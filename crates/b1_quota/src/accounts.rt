ghost use Rattle.std.specs.Prelude.{◌≡◌, ◌+◌, ◌<◌, ◌≤◌, ◌^◌, ◌==◌, position, OnOk};
ghost use Rattle.b1_model.specs.MachineTables.{limit_of as limit_on};
ghost use Rattle.b1_model.specs.declared.answers.Quantity.TheVariants.{Entries, Bytes, Handles};
ghost use Rattle.b1_quota.specs.Accounts.{amount_in, own as own_charge, others as others_charge, total, with_charge, plus, minus, cleared, with_user, has_account, IsDistinct};

use b1_model::{Charge, Limits, Quantity};
use std::alloc::AllocError;

/// What one user is charged.
#[derive(Clone, Copy, Debug)]
pub struct Account {
    /// The user.
    pub user: u32,
    /// What the user is charged.
    pub charge: Charge,
}

/// What one user is charged of a quantity, and what all other users are.
#[derive(Clone, Copy)]
pub struct Shares {
    pub own: u64,
    pub others: u64,
}

/// How much of a quantity a charge has.
pub fn amount(charge: &Charge, what: Quantity) -> u32
    ensures { result ≡ amount_in what charge.now }
{
    match what {
        Quantity::Entries => charge.entries,
        Quantity::Bytes => charge.bytes,
        Quantity::Handles => charge.handles,
    }
}

/// The limit on a quantity.
pub fn limit(limits: &Limits, what: Quantity) -> u32
    ensures { result ≡ limit_on what limits.now }
{
    match what {
        Quantity::Entries => limits.entries,
        Quantity::Bytes => limits.bytes,
        Quantity::Handles => limits.handles,
    }
}

/// What a user is charged of a quantity, and what all other users are.
pub fn shares_of(accounts: &[Account], user: u32, what: Quantity) -> Shares
    requires { total what accounts.now < 2 ^ 32 }
    ensures own { result.own ≡ own_charge what user accounts.now }
    ensures others { result.others ≡ others_charge what user accounts.now }
    ensures within { result.own + result.others ≡ total what accounts.now }
{
    let mut shares = Shares { own: 0, others: 0 };
    for account in accounts {
        if account.user == user {
            shares.own += u64::from(amount(&account.charge, what));
        } else {
            shares.others += u64::from(amount(&account.charge, what));
        }
    }
    shares
}

/// Where a user's account stands; `None` where the user has none.
pub fn index_of(accounts: &[Account], user: u32) -> Option<usize>
    ensures { result ≡ position (λ a. a.user == user) accounts.now }
{
    accounts.iter().position(|a| a.user == user)
}

/// Adds a charge to another.
fn add(charge: &mut Charge, more: &Charge)
    requires entries { charge.old.entries + more.now.entries < 2 ^ 32 }
    requires bytes { charge.old.bytes + more.now.bytes < 2 ^ 32 }
    requires handles { charge.old.handles + more.now.handles < 2 ^ 32 }
    ensures { charge.new ≡ plus more.now charge.old }
{
    charge.entries += more.entries;
    charge.bytes += more.bytes;
    charge.handles += more.handles;
}

/// Takes a charge from another.
fn subtract(charge: &mut Charge, less: &Charge)
    requires entries { less.now.entries ≤ charge.old.entries }
    requires bytes { less.now.bytes ≤ charge.old.bytes }
    requires handles { less.now.handles ≤ charge.old.handles }
    ensures { charge.new ≡ minus less.now charge.old }
{
    charge.entries -= less.entries;
    charge.bytes -= less.bytes;
    charge.handles -= less.handles;
}

/// Charges a user more.
pub fn charge_more(accounts: &mut Vec<Account>, user: u32, more: &Charge)
    requires distinct { IsDistinct accounts.old.items }
    requires entries { own_charge Entries user accounts.old.items + more.now.entries < 2 ^ 32 }
    requires bytes { own_charge Bytes user accounts.old.items + more.now.bytes < 2 ^ 32 }
    requires handles { own_charge Handles user accounts.old.items + more.now.handles < 2 ^ 32 }
    ensures { accounts.new.items ≡ with_charge user (plus more.now) accounts.old.items }
{
    if let Some(i) = index_of(accounts, user) {
        add(&mut accounts[i].charge, more);
    }
}

/// Charges a user less.
pub fn charge_less(accounts: &mut Vec<Account>, user: u32, less: &Charge)
    requires distinct { IsDistinct accounts.old.items }
    requires entries { less.now.entries ≤ own_charge Entries user accounts.old.items }
    requires bytes { less.now.bytes ≤ own_charge Bytes user accounts.old.items }
    requires handles { less.now.handles ≤ own_charge Handles user accounts.old.items }
    ensures { accounts.new.items ≡ with_charge user (minus less.now) accounts.old.items }
{
    if let Some(i) = index_of(accounts, user) {
        subtract(&mut accounts[i].charge, less);
    }
}

/// Charges nobody anything.
pub fn clear(accounts: &mut Vec<Account>)
    ensures { accounts.new.items ≡ cleared accounts.old.items }
{
    for account in accounts.iter_mut() {
        account.charge = NOTHING;
    }
}

/// No charge.
const NOTHING: Charge = Charge {
    entries: 0,
    bytes: 0,
    handles: 0,
};

/// Whether a user has an account.
fn has(accounts: &[Account], user: u32) -> bool
    ensures { result ≡ has_account user accounts.now }
{
    accounts.iter().map(|a| a.user).any(|u| u == user)
}

/// Opens an account for a user who has none. An error is want of memory, and leaves all as it was.
pub fn open_account(accounts: &mut Vec<Account>, user: u32) -> Result<(), AllocError>
    ensures { OnOk result (accounts.new.items ≡ with_user user accounts.old.items) }
{
    if has(accounts, user) {
        return Ok(());
    }
    accounts.push(Account {
        user,
        charge: NOTHING,
    })?;
    Ok(())
}
