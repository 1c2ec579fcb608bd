// Files that are written.
ghost use Rattle.std.specs.Prelude.{◌≡◌, ◌≤◌, ◌∷◌, []};
ghost use Rattle.kc_kit_files.specs.Outside.{kept};
ghost use Rattle.kc_kit_running.specs.Writing.{AreWritten, written};

use kc_base::Files;
use kc_kit_files::{Ended, Said, write_file};
use std::alloc::Global;

/// A file that is to be written.
#[derive(Drop)]
pub struct Output<'a> {
    pub name: &'a str,
    pub bytes: Vec<u8>,
}

/// Writes a file.
pub fn write_output<'a, F: Files>(alloc: Global, file: &Output<'a>, files: &mut F) -> Ended<'a>
    ensures written { AreWritten (kept (F.held files.old) (F.write_faults files.old)) (written file.now ∷ []) result (kept (F.held files.new) (F.write_faults files.new)) }
    ensures later { F.write_faults files.old ≤ F.write_faults files.new }
    ensures no_read { F.read_faults files.new ≡ F.read_faults files.old }
{
    let status = write_file(alloc, file.name, &file.bytes, files);
    let said = Said::File(file.name);
    Ended { status, said }
}
