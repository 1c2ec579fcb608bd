// What a fired command of HSO does outside its latches.
ghost use Rattle.std.specs.Prelude.{◌≡◌};
ghost use Rattle.kc_block_spec.specs.Fired.{resets as is_reset, starts as is_start, fired_ios1, fired_ios2, fired_request};

use kc_base::bit;

/// Whether it resets Timer 2.
pub(crate) fn resets(fired: Option<u8>) -> bool
    ensures { result ≡ is_reset fired }
{
    match fired {
        Some(command) => command % 16 == 14,
        None => false,
    }
}

/// Whether it starts the further unit.
pub(crate) fn starts(fired: Option<u8>) -> bool
    ensures { result ≡ is_start fired }
{
    match fired {
        Some(command) => command % 16 == 15,
        None => false,
    }
}

/// The bits of IOS1 that it sets: those of the software timers.
pub(crate) fn ios1_bits(fired: Option<u8>) -> u8
    ensures { result ≡ fired_ios1 fired }
{
    match fired {
        Some(command) => match command % 16 {
            8 => 1,
            9 => 2,
            10 => 4,
            11 => 8,
            _ => 0,
        },
        None => 0,
    }
}

/// The bits of IOS2 that it sets.
pub(crate) fn ios2_bits(fired: Option<u8>) -> u8
    ensures { result ≡ fired_ios2 fired }
{
    match fired {
        Some(command) => match command % 16 {
            0 => 1,
            1 => 2,
            2 => 4,
            3 => 8,
            4 => 16,
            5 => 32,
            6 => 3,
            7 => 12,
            14 => 64,
            15 => 128,
            _ => 0,
        },
        None => 0,
    }
}

/// The request that it raises, if its bit 4 is 1.
pub(crate) fn request_bits(fired: Option<u8>) -> u16
    ensures { result ≡ fired_request fired }
{
    match fired {
        Some(command) => {
            if !bit(command, 4) {
                0
            } else if command % 16 < 8 {
                8
            } else {
                32
            }
        }
        None => 0,
    }
}
