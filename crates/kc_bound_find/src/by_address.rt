ghost use Rattle.std.specs.Prelude.{◌≡◌, vec_len};

use kc_base::NoMemory;
use std::alloc::Global;

/// How many addresses there are.
pub(crate) const ADDRESSES: usize = 0x1_0000;

/// One value for each address.
#[derive(Drop)]
pub(crate) struct ByAddress<T> {
    values: Vec<T>,
    ghost whole: { vec_len values ≡ 65536 },
}

impl<T: Copy + Drop> ByAddress<T> {
    /// The same value for each address.
    pub(crate) fn new(alloc: Global, value: T) -> Result<ByAddress<T>, NoMemory> {
        let mut values = Vec::new(alloc);
        'fill: while values.len() < ADDRESSES {
            values.push(value)?;
        }
        Ok(ByAddress { values })
    }

    /// The value of an address.
    pub(crate) fn get(&self, at: u16) -> T {
        self.values[usize::from(at)]
    }

    /// Sets the value of an address.
    pub(crate) fn set(&mut self, at: u16, value: T) {
        self.values[usize::from(at)] = value;
    }
}
