// Laws of placing and filling. Each function does nothing when it runs.
ghost use Rattle.kc_link.specs.Laws.{RelocationsFit, AbsolutePiecesStand, OneImage};

/// Where no rule is broken, the number of each relocation fits its bytes.
pub fn relocations_fit()
    ensures { RelocationsFit }
{}

/// Where no rule is broken, each absolute piece stands at its address.
pub fn absolute_pieces_stand()
    ensures { AbsolutePiecesStand }
{}

/// Modules and places have at most one filled image.
pub fn one_image()
    ensures { OneImage }
{}
