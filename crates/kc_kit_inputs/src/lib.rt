//! What named files say to a command, or the refusal of their first fault: sources, objects, libraries, hex files, stimuli,
//! analogue files, scripts of the debugger, traces, rules, maps and notes. It stands on `kc_kit_files` and on the reader of each format. Example: a
//! source with a fault in line 3 is the refusal `source NAME:3: E12` of status 3.
#![tactic(auto)]

mod analog;
mod annotations;
mod driving;
mod hex_image;
mod input_lines;
mod library;
mod objects;
mod reading;
mod rules;
mod scripts;
mod sources;
mod stimuli;

pub use annotations::{AnnotationFiles, Annotations, address, annotation_files, annotations_in};
pub use driving::{Driving, Given, driving_in, given_for};
pub use hex_image::image_of;
pub use library::{read_library, take_members};
pub use objects::read_objects;
pub use reading::{input_for, read_inputs};
pub use rules::{read_rules, trace_refusal};
pub use scripts::{lines_in, read_script};
pub use sources::{assemble_source, assemble_sources};
pub use stimuli::stimuli_in;
