//! The number of a window, and the halves of its word registers.
ghost use Rattle.std.specs.Prelude.{◌≡◌};
ghost use Rattle.kc_block_spec.specs.Registers.{words_read, words_written, window_number, is_half};

use kc_block_spec::{Window, readable_word, writable_word};

/// The window's number, as a further unit is given it.
pub(crate) fn number(window: Window) -> u8
    ensures { result ≡ window_number window }
{
    match window {
        Window::Window0 => 0,
        Window::Window1 => 1,
        Window::Window15 => 15,
    }
}

/// Whether a byte is one of the two of a word that the window reads.
pub(crate) fn is_half_read(window: Window, sfr: u8) -> bool
    ensures { result ≡ is_half (words_read window) sfr }
{
    readable_word(window, sfr - sfr % 2).is_some()
}

/// Whether a byte is one of the two of a word that the window writes.
pub(crate) fn is_half_written(window: Window, sfr: u8) -> bool
    ensures { result ≡ is_half (words_written window) sfr }
{
    writable_word(window, sfr - sfr % 2).is_some()
}
