//! What accounts for a change, as a line says it.
ghost use Rattle.std.specs.Prelude.{◌≡◌};
ghost use Rattle.aide_line_text.specs.Account.{account_as};

use aide_agreement::SameAs;

/// What accounts for a change.
#[derive(Clone, Copy)]
pub enum Account {
    /// The new entry agrees with the old one.
    Old,
    /// The same happened on a trusted machine.
    Trusted,
    /// This line of a list leaves it out.
    LeftOut(u64),
}

/// Returns an entry that accounts for a change, as a line says it.
pub fn account_as(same: Option<SameAs>) -> Option<Account>
    ensures { result ≡ account_as same }
{
    match same {
        None => None,
        Some(SameAs::Old) => Some(Account::Old),
        Some(SameAs::Trusted) => Some(Account::Trusted),
    }
}
