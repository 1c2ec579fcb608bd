ghost use Rattle.std.specs.Prelude.{◌≡◌};
ghost use Rattle.kc_link_place.specs.BaseLists.{bases_in};

use std::marker::Model;

/// What the numbers of a module count from: the address of each of its pieces, and the number of each of its externals.
#[derive(Drop)]
pub struct Bases {
    pieces: Vec<u16>,
    externals: Vec<u16>,
}

impl Model for Bases {
    ghost use Rattle.kc_link_place.specs.BaseLists.{BaseLists};

    ghost Value = { BaseLists };

    ghost view = { λ b. record { pieces = b.pieces.items; externals = b.externals.items } };
}

impl Bases {
    /// The bases with these addresses of pieces and numbers of externals, each in the order of the module.
    pub fn new(pieces: Vec<u16>, externals: Vec<u16>) -> Bases
        ensures { result ≡ record { pieces = pieces.items; externals = externals.items } }
    {
        Bases { pieces, externals }
    }

    /// The address of a piece; 0 where the module has no such piece.
    pub fn piece(&self, number: u16) -> u16
        ensures { result ≡ (bases_in self.now).piece number }
    {
        match self.pieces.get(number as usize) {
            None => 0,
            Some(address) => *address,
        }
    }

    /// The number of an external; 0 where the module has no such external.
    pub fn external(&self, number: u16) -> u16
        ensures { result ≡ (bases_in self.now).external number }
    {
        match self.externals.get(number as usize) {
            None => 0,
            Some(value) => *value,
        }
    }
}
