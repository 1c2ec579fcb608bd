ghost use Rattle.std.specs.Prelude.{◌≡◌, ◌≢◌, ◌<◌, ◌≤◌, ◌+◌, None, Err, IfOk};
ghost use Rattle.kc_base.specs.Causes.{Rose};
ghost use Rattle.kc_base.specs.Held.{Reported};

use kc_base::{FileFault, Files};
use kc_byte_source::Source;
use std::alloc::Global;

/// Files that are also read piece by piece, however long they are. The name `-` holds what standard input gives.
pub trait Streams: Files {
    /// A file that is open.
    type Stream: Source + Drop;

    /// Opens the file of this name: its bytes are to come.
    fn open(&mut self, alloc: Global, name: &str) -> Result<Self::Stream, FileFault>
        ensures bytes { Reported (Self.held self.old) (λ held. IfOk result (λ stream. (held name.now ≢ None) × (Self.Stream.to_come stream ≡ held name.now))) }
        ensures fresh { IfOk result (λ stream. Self.Stream.faults stream ≡ 0) }

        ensures missing { Reported (Self.held self.old) (λ held. result ≡ Err FileFault.Missing → held name.now ≡ None) }
        ensures not_long { result ≢ Err FileFault.TooLong }
        ensures failed { result ≡ Err FileFault.Failed → Rose (Self.read_faults self.old) (Self.read_faults self.new) }
        ensures calm { result ≢ Err FileFault.Failed → Self.read_faults self.new ≡ Self.read_faults self.old }

        ensures same { Self.held self.new ≡ Self.held self.old }
        ensures later { Self.read_faults self.old ≤ Self.read_faults self.new }
        ensures no_write { Self.write_faults self.new ≡ Self.write_faults self.old };

    /// Closes a file: the reads of it that have failed count among those of all files.
    fn close(&mut self, stream: Self::Stream)
        ensures failed { 0 < Self.Stream.faults stream → Rose (Self.read_faults self.old) (Self.read_faults self.new) }
        ensures counted { Self.read_faults self.new ≤ Self.read_faults self.old + Self.Stream.faults stream }

        ensures same { Self.held self.new ≡ Self.held self.old }
        ensures later { Self.read_faults self.old ≤ Self.read_faults self.new }
        ensures no_write { Self.write_faults self.new ≡ Self.write_faults self.old };
}
