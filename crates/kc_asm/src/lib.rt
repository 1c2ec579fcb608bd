//! The assembler: `assemble` gives the module of a source, or its first fault. It puts the passes together: lines (`kc_lex`),
//! expansion (`kc_macro`), statements and names (`kc_source`), values and places (`kc_asm_check`), and `module_of`
//! (`kc_asm_section`). `unlinked` collects the module of a source without a fault: the bytes that its statements write, its names,
//! its externals and its stack. The text of `CSEG AT 2080H`, `NOP`, `END` gives a module with one absolute piece that has the byte FD.
//! Beside it stand laws of definitions: the image that is linked from the modules of sources decodes to their statements. Where
//! a source has `ADD 1CH,1AH` at 2080H, the image decodes there to that instruction.
#![tactic(auto)]

mod assembling;
mod collecting;
mod laws;
mod naming;
mod pieces;
mod publics;
mod writing;

pub use assembling::assemble;
pub use collecting::unlinked;
pub use laws::{
    linked_image, one_image, one_image_of_sources, statements_have_locations, worked_source,
};
