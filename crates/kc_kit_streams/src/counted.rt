// A source with a count of its faults.
ghost use Rattle.std.specs.Prelude.{◌≡◌};

use kc_byte_source::{Failed, Source};

/// A source that says how often it has failed, up to the last number of 64 bits.
#[derive(Drop)]
pub struct Counted<S: Source> {
    source: S,
    faults: u64,
}

impl<S: Source> Counted<S> {
    /// A source of which no read has failed.
    pub fn new(source: S) -> Counted<S>
        ensures source { result.source ≡ source }
        ensures faults { result.faults ≡ 0 }
    {
        Counted { source, faults: 0 }
    }

    /// How often a read has failed.
    pub fn faults(&self) -> u64
        ensures { result ≡ self.now.faults }
    {
        self.faults
    }
}

impl<S: Source> Source for Counted<S> {
    ghost to_come = { λ s. S.to_come s.source };

    ghost faults = { λ s. s.faults };

    fn read(&mut self, room: &mut [u8]) -> Result<usize, Failed> {
        match self.source.read(room) {
            Ok(count) => Ok(count),
            Err(Failed) => {
                self.faults = self.faults.saturating_add(1);
                Err(Failed)
            }
        }
    }
}
