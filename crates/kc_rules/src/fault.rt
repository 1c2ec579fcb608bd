use kc_base::NoMemory;
use thiserror::Error;

/// Why a rules file is refused, with the number of its line, counted from 1.
#[derive(Clone, Copy, Debug, PartialEq, Eq, Error)]
pub enum RulesFault {
    #[error("line {0} is no mark and no rule")]
    BadRule(u32),
    #[error("memory was wanted and not had")]
    NoMemory,
}

/// Why some words have no reading.
#[derive(Clone, Copy)]
pub(crate) enum ReadFault {
    Wrong,
    NoMemory,
}

impl From<NoMemory> for ReadFault {
    ghost use Rattle.std.specs.Prelude.{◌≡◌};
    ghost use Rattle.kc_rules.specs.declared.fault.ReadFault.TheVariants as faults;

    ghost from_gives = { λ _ fault. fault ≡ faults.NoMemory };

    fn from(_: NoMemory) -> ReadFault {
        ReadFault::NoMemory
    }
}

impl From<NoMemory> for RulesFault {
    ghost use Rattle.std.specs.Prelude.{◌≡◌};
    ghost use Rattle.kc_rules.specs.declared.fault.RulesFault.TheVariants as faults;

    ghost from_gives = { λ _ fault. fault ≡ faults.NoMemory };

    fn from(_: NoMemory) -> RulesFault {
        RulesFault::NoMemory
    }
}
