ghost use Rattle.std.specs.Prelude.{◌≡◌, true, []};
ghost use Rattle.kc_base.specs.Bits.{bit};
ghost use Rattle.kc_base.specs.Pins.{rxd};
ghost use Rattle.kc_stim.specs.Drives.{Drives};
ghost use Rattle.kc_stim.specs.Proper.{AreProper};
ghost use Rattle.kc_block_spec.specs.Levels.{stimulated_before};

/// Whatever the stimuli and wires, RXD is high before state 0 where nothing has driven the pins before.
pub fn rxd_starts_high()
    ensures { (d : Drives) → AreProper d → d.stimuli.start ≡ [] → bit (stimulated_before d 0) rxd ≡ true }
{}
