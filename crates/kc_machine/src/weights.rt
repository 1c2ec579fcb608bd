// Which window a master sees, and as how many an access below 0018H counts.
ghost use Rattle.std.specs.Prelude.{◌≡◌, ◌≤◌};
ghost use Rattle.kc_block_spec.specs.Registers.{window_seen, bytes_read_everywhere, bytes_written_everywhere};
ghost use Rattle.kc_machine_spec.specs.Scene.{byte_weight, word_weight};

use kc_block_spec::{ReadableByte, Window, readable_everywhere, writable_everywhere};
use kc_bus::Master;

/// The horizontal window that a master sees under this value of WSR.
pub(crate) fn window_for(by: Master, wsr: u8) -> Window
    ensures { result ≡ window_seen by wsr }
{
    match (by, wsr) {
        (Master::Cpu, 1) => Window::Window1,
        (Master::Cpu, 15) => Window::Window15,
        _ => Window::Window0,
    }
}

/// As how many a byte read counts: a register that every window has stands beside the units.
pub(crate) fn weigh_read(sfr: u8) -> u8
    ensures read { result ≡ byte_weight bytes_read_everywhere sfr }
    ensures bound { result ≤ 1 }
{
    if readable_everywhere(sfr).is_some() {
        0
    } else {
        1
    }
}

/// As how many a byte write counts.
pub(crate) fn weigh_write(sfr: u8) -> u8
    ensures written { result ≡ byte_weight bytes_written_everywhere sfr }
    ensures bound { result ≤ 1 }
{
    if writable_everywhere(sfr).is_some() {
        0
    } else {
        1
    }
}

/// As how many a word access counts: the zero register stands beside the units.
pub(crate) fn weigh_word(sfr: u8) -> u8
    ensures value { result ≡ word_weight sfr }
    ensures bound { result ≤ 2 }
{
    match readable_everywhere(sfr) {
        Some(ReadableByte::Zeros) => 0,
        _ => 2,
    }
}
