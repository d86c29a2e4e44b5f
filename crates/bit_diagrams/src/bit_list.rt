// A list of bits that contracts see as a list.
ghost use Rattle.std.specs.Prelude.{◌≡◌, ◌==◌, length};

use std::marker::Model;

/// A list of bits, one for each place of a store.
#[derive(Debug, Drop)]
pub struct Bits {
    values: Vec<bool>,
}

impl Model for Bits {
    ghost use Rattle.std.specs.Prelude.{List, Bool};

    ghost Value = { List Bool };

    ghost view = { λ b. b.values.items };
}

impl Bits {
    /// The bits of a `Vec`; it takes no memory.
    pub fn from_vec(values: Vec<bool>) -> Bits
        ensures { result ≡ values.items }
    {
        Bits { values }
    }

    /// The `Vec` of the bits; it takes no memory.
    pub fn into_vec(self) -> Vec<bool>
        ensures { result.items ≡ self }
    {
        self.values
    }

    /// The bits, in the order of their places.
    pub fn as_slice(&self) -> &[bool]
        ensures { result.now ≡ self.now }
    {
        self.values.as_slice()
    }

    /// The number of bits.
    pub fn len(&self) -> usize
        ensures { result ≡ length self.now }
    {
        self.values.len()
    }

    /// Whether there are no bits.
    pub fn is_empty(&self) -> bool
        ensures { result ≡ (length self.now == 0) }
    {
        self.values.is_empty()
    }
}
