/// Under what a name is listed.
#[derive(Clone, Copy, Debug, PartialEq, Eq)]
pub enum Key<'a> {
    /// The name itself.
    Whole,
    /// The text up to and with its first delimiter behind the prefix.
    Subdir(&'a str),
}

impl<'a> Key<'a> {
    ghost use Rattle.std.specs.Prelude.{◌≡◌};
    ghost use Rattle.list_words.specs.Listings.{text_under};

    /// The text under which a name with this key is listed.
    pub fn text(self, name: &'a str) -> &'a str
        ensures { result.now ≡ text_under self.entry name.now }
    {
        match self {
            Key::Whole => name,
            Key::Subdir(subdir) => subdir,
        }
    }
}
