//! The refusals' numbers, and what becomes a refusal under `?`.
ghost use Rattle.std.specs.Prelude.{◌≡◌};
ghost use Rattle.cores.specs.Refusals.{number_of};
ghost use Rattle.cores.specs.declared.table.Refusal.TheVariants as refusal;

use super::table::Refusal;
use descriptor::UsedUp;

impl From<UsedUp> for Refusal {
    ghost from_gives = { λ _ r. r ≡ refusal.UsedUp };

    fn from(_e: UsedUp) -> Refusal {
        Self::UsedUp
    }
}

impl Refusal {
    /// Its number in the order in which the refusals are tested. It is no `From`: the number leaves out which word or place is meant.
    pub fn number(self) -> u64
        ensures { result ≡ number_of self }
    {
        match self {
            Refusal::Closed => 1,
            Refusal::Open => 2,
            Refusal::Setting => 3,
            Refusal::Tagged(_) => 4,
            Refusal::NoCore => 5,
            Refusal::Halted => 6,
            Refusal::Busy => 7,
            Refusal::AtRest => 8,
            Refusal::List => 9,
            Refusal::NoWord => 10,
            Refusal::NoRight => 11,
            Refusal::UsedUp => 12,
            Refusal::NoAnswer => 13,
            Refusal::File(_) => 14,
        }
    }
}
