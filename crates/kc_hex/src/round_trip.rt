ghost use Rattle.kc_hex.specs.Law.{WrittenIsRead};

/// Reading what was written of an image gives the same image.
pub fn written_is_read()
    ensures { WrittenIsRead }
{}
