// A law of the options.
ghost use Rattle.kc_kit_words.specs.Order.{OptionsInAnyOrder};

/// Options come in any order: two that stand beside one another may change places, but two that name files for reading,
/// which are read in the order of the words.
pub fn options_come_in_any_order()
    ensures { OptionsInAnyOrder }
{}
