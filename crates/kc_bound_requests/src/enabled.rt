use crate::certificate::EnabledSet;

/// What a machine allows of requests between two activities: I lets interrupts in, PSE the transfer server, and where `held` is set
/// an instruction comes before either.
#[derive(Clone, Copy, Drop)]
pub struct Enabled {
    pub interrupts: bool,
    pub server: bool,
    pub held: bool,
}

/// Each of them.
pub(crate) const EACH: [Enabled; 8] = [
    Enabled {
        interrupts: false,
        server: false,
        held: false,
    },
    Enabled {
        interrupts: true,
        server: false,
        held: false,
    },
    Enabled {
        interrupts: false,
        server: true,
        held: false,
    },
    Enabled {
        interrupts: true,
        server: true,
        held: false,
    },
    Enabled {
        interrupts: false,
        server: false,
        held: true,
    },
    Enabled {
        interrupts: true,
        server: false,
        held: true,
    },
    Enabled {
        interrupts: false,
        server: true,
        held: true,
    },
    Enabled {
        interrupts: true,
        server: true,
        held: true,
    },
];

/// Any I and PSE, and anything may come: what a routine may begin with that is called.
pub const CALLED: EnabledSet = EnabledSet { bits: 0x0F };

/// Any I and PSE, and an instruction has to come: what a routine begins with that an interrupt enters.
pub const ENTERED: EnabledSet = EnabledSet { bits: 0xF0 };

/// I set, any PSE, and anything may come: what a main program begins with whose interrupts are on.
pub const INTERRUPTIBLE: EnabledSet = EnabledSet { bits: 0x0A };

/// I and PSE clear, and anything may come: what a program begins with at a reset.
pub const AT_RESET: EnabledSet = EnabledSet { bits: 0x01 };
