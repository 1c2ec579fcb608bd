// A sink that takes little at a time.
use kc_base::{Failed, Sink};

/// Takes one byte of each write, for another sink.
#[derive(Drop)]
pub(crate) struct Narrow<S: Sink + Drop> {
    pub(crate) sink: S,
}

impl<S: Sink + Drop> Sink for Narrow<S> {
    ghost use Rattle.std.specs.Prelude.{None};

    ghost written = { λ _. None };

    ghost faults = { λ s. S.faults s.sink };

    fn write(&mut self, piece: &[u8]) -> Result<usize, Failed> {
        self.sink.write(&piece[..1])
    }
}
