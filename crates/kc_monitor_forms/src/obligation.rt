ghost use Rattle.std.specs.Prelude.{◌≡◌};
ghost use Rattle.kc_monitor_forms.specs.Obligations as spec;

/// A number that may be negative.
#[derive(Clone, Copy)]
pub enum Offset {
    Minus(u128),
    Plus(u128),
}

/// What became of an obligation.
#[derive(Clone, Copy)]
pub enum Answer {
    Good,
    Bad,
    /// It is not decided when the life ends.
    Open,
}

/// The least and the greatest number that was seen.
#[derive(Clone, Copy)]
pub struct Spread {
    pub least: Offset,
    pub most: Offset,
}

/// What a rule asks at a place of a life: its state, what became of it, and what was seen.
#[derive(Clone, Copy)]
pub struct Obligation {
    pub at: u64,
    pub answer: Answer,
    pub seen: Option<Offset>,
    pub spread: Option<Spread>,
}

/// Something that happens, as a rule sees it: which of its events it is.
#[derive(Clone, Copy)]
pub struct Point {
    pub at: u64,
    /// One of the events that are asked for.
    pub event: bool,
    /// One of those that begin something.
    pub from: bool,
    /// One of those that end it.
    pub to: bool,
}

impl Offset {
    fn is_less(self, other: Offset) -> bool
        ensures { result ≡ spec.offset_lt self other }
    {
        match (self, other) {
            (Offset::Minus(a), Offset::Minus(b)) => b < a,
            (Offset::Minus(_), Offset::Plus(_)) => true,
            (Offset::Plus(_), Offset::Minus(_)) => false,
            (Offset::Plus(a), Offset::Plus(b)) => a < b,
        }
    }

    pub fn least(self, other: Offset) -> Offset
        ensures { result ≡ spec.least_of self other }
    {
        if other.is_less(self) { other } else { self }
    }

    pub fn most(self, other: Offset) -> Offset
        ensures { result ≡ spec.most_of self other }
    {
        if self.is_less(other) { other } else { self }
    }
}

impl Obligation {
    /// A length in states, or a count, that was seen.
    pub fn measured(at: u64, n: u64, good: bool) -> Obligation
        ensures { result ≡ spec.measured at n good }
    {
        let seen = Offset::Plus(u128::from(n));
        Obligation {
            at,
            answer: good_if(good),
            seen: Some(seen),
            spread: Some(Spread {
                least: seen,
                most: seen,
            }),
        }
    }

    /// One of which nothing was seen.
    pub fn unseen(at: u64, answer: Answer) -> Obligation
        ensures { result ≡ spec.unseen at answer }
    {
        Obligation {
            at,
            answer,
            seen: None,
            spread: None,
        }
    }
}

/// Good, or bad.
pub fn good_if(good: bool) -> Answer
    ensures { result ≡ spec.good_if good }
{
    if good { Answer::Good } else { Answer::Bad }
}
