// What the host reads piece by piece.
ghost use Rattle.kc_kit_streams.specs.HostReading.{left_in};

use std::io::{self, Read};

/// Standard input, or a file that was opened.
#[derive(Drop)]
pub enum HostReader<I: Read, F: Read> {
    Input(I),
    File(F),
}

impl<I: Read, F: Read> Read for HostReader<I, F> {
    ghost remaining = { left_in I.remaining F.remaining };

    fn read(&mut self, buf: &mut [u8]) -> io::Result<usize> {
        match self {
            HostReader::Input(input) => input.read(buf),
            HostReader::File(file) => file.read(buf),
        }
    }
}
