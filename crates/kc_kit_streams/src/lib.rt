//! Files that are read piece by piece, however long they are: the trait `Streams` beside `Files`, the real ones with standard input,
//! and those in memory. It stands on the files of `kc_base` and on sources (`kc_byte_source`). The host is called in the files whose
//! names begin with `host`.
//! The name `-` is that of standard input; no file has it, since no name of a file begins with `-`.
#![tactic(auto)]

mod counted;
mod host;
mod host_reader;
mod memory;
mod streams;

pub use counted::Counted;
pub use host::HostStreams;
pub use host_reader::HostReader;
pub use memory::MemStream;
pub use streams::Streams;
