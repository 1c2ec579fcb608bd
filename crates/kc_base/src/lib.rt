//! What every part of the kit speaks of: state times, pins, undefined uses, texts, images, files and sinks.
//! It stands on no other crate of the kit. The host's files and standard streams are called in the files whose names begin with
//! `host`.
//! `pin_number(b"RXD")` gives `Some(37)`, `hex_word(b"20A2")` gives `Some(0x20A2)`, and `hex_word(b"20A")` gives `None`.
#![tactic(auto)]

mod bits;
mod digits;
mod edge_out;
mod fields;
mod files;
mod host;
mod host_beside;
mod host_output;
mod host_reading;
mod host_writing;
mod image;
mod limits;
mod memory;
mod pins;
mod sink;
mod steps;
mod text;
mod text_lines;
mod types;

pub use bits::{bit, weight};
pub use digits::{address_text, byte_text, hex_digit, put_address, put_number, read_digits};
pub use edge_out::EdgeOut;
pub use fields::{decimal, hex_byte, hex_word, pin_number, split_at_space, state_time};
pub use files::{FileFault, Files};
pub use host::HostFiles;
pub use host_output::{HostDiagnostics, HostOut};
pub use host_reading::open_plain;
pub use image::{IMAGE_LEN, Image};
pub use limits::{
    ENTRY_COUNT, FILE_LIMIT, HOLE_START, IMAGE_START, MAX_STATES, REGISTER_FILE_END, ROM_END,
    TRANSFER_COUNT,
};
pub use memory::{MemFiles, MemSink, count_call};
pub use pins::{PIN_COUNT, constants_are_named};
pub use sink::{Failed, Sink, put_all};
pub use steps::Steps;
pub use text::Text;
pub use text_lines::{after, first_line, prefix};
pub use types::{Edge, IntSet, Kind, Level, NoMemory, Pin, PtsMode, StateTime, Undefined};
