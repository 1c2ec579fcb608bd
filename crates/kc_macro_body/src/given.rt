ghost use Rattle.std.specs.Prelude.{◌≡◌, ◌+◌, ◌^◌, ◌&&◌, nat_lt, nat_le, is_none};
ghost use Rattle.std.specs.Option.{IfSome};

use std::marker::Model;

// A name has at most 31 characters: one for a LOCAL name has two and up to 29 digits.
const NUMBERS: u128 = 100_000_000_000_000_000_000_000_000_000;

/// How many LOCAL names have been given: fewer than 10^29, so that the name of the last has at most 31 characters.
#[derive(Clone, Copy)]
pub struct Given {
    count: u128,
}

impl Model for Given {
    ghost use Rattle.std.specs.Prelude.{ℕ, ◌<◌, ◌^◌};

    ghost Value = { ℕ };

    ghost view = { λ g. g.count };

    ghost inverse = { λ n. record { count = n } };

    ghost invariant = { λ g. g.count < 10 ^ 29 };
}

impl Given {
    /// No names yet.
    pub fn none() -> Given
        ensures { result ≡ 0 }
    {
        Given { count: 0 }
    }

    /// So many names more, or `None` where the name of one of these would have over 31 characters.
    pub fn with(self, more: u64) -> Option<Given>
        ensures given { IfSome result (λ g. g ≡ self + more) }
        ensures run_out { is_none result ≡ (nat_lt 0 more && nat_le (10 ^ 29) (self + more)) }
    {
        let count = self.count + u128::from(more);
        if 0 < more && NUMBERS <= count {
            None
        } else {
            Some(Given { count })
        }
    }

    /// The number of the name at a place, from 0, among those that are given next.
    pub(crate) fn number(self, place: u64) -> u128
        ensures { result ≡ self + place + 1 }
    {
        self.count + u128::from(place) + 1
    }
}
