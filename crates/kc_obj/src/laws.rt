ghost use Rattle.std.specs.Prelude.{◌≡◌, Ok};
ghost use Rattle.kc_obj_module.specs.Spelling.{spelling};
ghost use Rattle.kc_obj.specs.Reading.{answer_of};
ghost use Rattle.kc_obj.specs.Law.{DecodedIsSpelled, SpelledIsDecoded, FirstIsReported};

use kc_obj_module::Module;

/// Bytes that are read as a module are the spelling of that module, which keeps the rules of the format.
pub fn decoded_is_spelled()
    ensures { DecodedIsSpelled }
{}

/// The spelling of a module is read as that module.
pub fn spelled_is_decoded()
    ensures { SpelledIsDecoded }
{}

/// The object of each module is read as that module. It does nothing when it runs.
pub fn encoded_is_decoded(module: &Module)
    ensures { answer_of (spelling «module».now) ≡ Ok «module».now }
{
    module.keeps_rules();
    module.has_room();
}

/// Of all faults of an object the first is reported, by offset, and of two at one offset the one of the lesser code; and an
/// object is read exactly where it has none.
pub fn first_is_reported()
    ensures { FirstIsReported }
{}
