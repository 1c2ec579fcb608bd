ghost use Rattle.kc_link_place.specs.Apart.{CodeStandsApart};

/// Where placing succeeds, each code piece stands in program memory, and no two of them have one address. It does
/// nothing when it runs.
pub fn code_stands_apart()
    ensures { CodeStandsApart }
{}
