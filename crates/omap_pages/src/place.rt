ghost use Rattle.std.specs.Prelude.{◌≡◌, ◌⊎◌};
ghost use Rattle.omap_pages.specs.Leaves.{IsNotAfter};

// A place among rows in leaves: the leaf's number, and how many of its rows stand before.
#[derive(Clone, Copy, Debug, PartialEq, Eq, PartialOrd, Ord)]
pub(crate) struct Place {
    pub(crate) leaf: usize,
    pub(crate) row: usize,
}

impl Place {
    // The later of two places.
    pub(crate) fn later(self, other: Place) -> Place
        ensures either { (result ≡ self) ⊎ (result ≡ other) }
        ensures this { IsNotAfter self result }
        ensures other { IsNotAfter other result }
    {
        self.max(other)
    }
}
