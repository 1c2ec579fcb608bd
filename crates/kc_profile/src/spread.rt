ghost use Rattle.std.specs.Prelude.{◌≡◌, ◌+◌, ◌-◌, ◌<◌, ◌^◌};
ghost use Rattle.kc_profile.specs.Spreads.{AreFew};
ghost use Rattle.kc_profile.specs.Spreads as spec;

use kc_base::StateTime;

/// A state of a life; lives count from 1.
#[derive(Clone, Copy)]
pub struct Moment {
    pub life: u16,
    pub at: StateTime,
}

/// Some numbers: how many, the least, the greatest, and when the first that is the greatest came.
#[derive(Clone, Copy)]
pub struct Spread {
    pub count: u64,
    pub least: u64,
    pub greatest: u64,
    pub when: Moment,
}

/// The spread of numbers and of one number more.
pub(crate) fn with_number(spread: Option<Spread>, number: u64, when: Moment) -> Spread
    requires { AreFew (2 ^ 64 - 2) spread }
    ensures { result ≡ spec.with_number number when spread }
{
    let one = Spread {
        count: 1,
        least: number,
        greatest: number,
        when,
    };
    match spread {
        Some(spread) => both(spread, one),
        None => one,
    }
}

/// The spread of numbers and of later ones.
pub(crate) fn both(earlier: Spread, later: Spread) -> Spread
    requires { earlier.count + later.count < 2 ^ 64 }
    ensures { result ≡ spec.both earlier later }
{
    Spread {
        count: earlier.count + later.count,
        least: earlier.least.min(later.least),
        greatest: earlier.greatest.max(later.greatest),
        when: if earlier.greatest < later.greatest {
            later.when
        } else {
            earlier.when
        },
    }
}

/// The spread of numbers and of later ones, of which there may be none.
pub(crate) fn together(earlier: Option<Spread>, later: Option<Spread>) -> Option<Spread>
    requires earlier { AreFew (2 ^ 63 - 1) earlier }
    requires later { AreFew (2 ^ 63 - 1) later }
    ensures { result ≡ spec.together earlier later }
{
    match (earlier, later) {
        (Some(earlier), Some(later)) => Some(both(earlier, later)),
        (None, later) => later,
        (earlier, None) => earlier,
    }
}
