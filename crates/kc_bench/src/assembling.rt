//! Assembles the source that standard input holds, and prints how many pieces and how many line entries its object has.
//! `bench/run asm` measures by it how the work grows with the source.

use crate::stopped::Stopped;
use kc_asm::assemble;
use kc_lex::SourceFault;
use std::io::Read;

/// The most bytes of a source.
const MOST_BYTES: usize = 1_048_576;

/// Assembles what is left of standard input; a fault of it is printed with its line.
pub fn run(rt: &HostRuntime) -> Result<(), Stopped> {
    let mut source = Vec::new(rt.alloc());
    rt.stdin().read_to_end(&mut source)?;
    if source.len() > MOST_BYTES {
        return Err(Stopped::TooLong);
    }
    match assemble(rt.alloc(), source.as_slice()) {
        Ok(module) => {
            let pieces = module.segments().len();
            let entries = module.lines().map_or(0, |lines| lines.len());
            println!(rt; "{pieces} {entries}")?;
            Ok(())
        }
        Err(SourceFault::At { line, code }) => {
            println!(rt; "{line}: {code}")?;
            Err(Stopped::Fault)
        }
        Err(SourceFault::NoMemory) => Err(Stopped::NoMemory),
    }
}
