ghost use Rattle.std.specs.Prelude.{◌≡◌, ◌==◌, ◌↔◌, true, [], length, IsOk, IfOk, IfErr, option_copied};
ghost use Rattle.rgw_types.specs.Pairs.{is_risen, value_of};

use crate::Text;
use std::alloc::{AllocError, Global};
use std::marker::Model;

/// Pairs of a name and a value, by rising name, each name once.
#[derive(Debug, Drop)]
pub struct Pairs {
    items: Vec<(Text, Text)>,
}

impl Model for Pairs {
    ghost use Rattle.std.specs.Prelude.{ℕ, List, IsTrue};
    ghost use Rattle.rgw_types.specs.Pairs.{is_risen};

    ghost Value = { List (List ℕ × List ℕ) };

    ghost view = { λ pairs. pairs.items.items };

    ghost invariant = { λ pairs. IsTrue (is_risen pairs.items.items) };
}

impl Pairs {
    /// No pairs. Takes no memory.
    pub fn new(alloc: Global) -> Self
        ensures { result ≡ [] }
    {
        Pairs {
            items: Vec::new(alloc),
        }
    }

    /// The pairs of a vector whose names rise, each above the one before; else the vector back.
    /// Takes no memory.
    pub fn from_vec(items: Vec<(Text, Text)>) -> Result<Self, Vec<(Text, Text)>>
        ensures risen { IsOk result ↔ (is_risen items.items ≡ true) }
        ensures ok { IfOk result (λ pairs. pairs ≡ items.items) }
        ensures err { IfErr result (λ back. back.items ≡ items.items) }
    {
        if names_rise(items.as_slice()) {
            Ok(Pairs { items })
        } else {
            Err(items)
        }
    }

    /// The vector back. Takes no memory.
    pub fn into_vec(self) -> Vec<(Text, Text)>
        ensures { result.items ≡ self }
    {
        let Pairs { items } = self;
        items
    }

    /// The pairs, lent.
    pub fn as_slice(&self) -> &[(Text, Text)]
        ensures pairs { result.now ≡ self.now }
        ensures risen { is_risen self.now ≡ true }
    {
        self.items.as_slice()
    }

    /// The value under a name.
    pub fn get(&self, name: &str) -> Option<&Text>
        ensures { option_copied result ≡ value_of self.now name.now }
    {
        let mut rest = self.items.as_slice();
        while let [pair, ..] = rest {
            if pair.0.as_str() == name {
                return Some(&pair.1);
            }
            rest = &rest[1..];
        }
        None
    }

    /// How many pairs there are.
    pub fn len(&self) -> usize
        ensures { result ≡ length self.now }
    {
        self.items.len()
    }
}

/// Whether each name is above the one before.
fn names_rise(items: &[(Text, Text)]) -> bool
    ensures { result ≡ is_risen items.now }
{
    let mut rest = items;
    while let [first, second, ..] = rest {
        if first.0 >= second.0 {
            return false;
        }
        rest = &rest[1..];
    }
    true
}
