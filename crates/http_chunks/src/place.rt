// Where a scan for the end of a text is.
ghost use Rattle.std.specs.Prelude.{◌≡◌, if◌then◌else◌};
ghost use Rattle.http_chunks.specs.Scans.{after_byte, opening_start};

/// Where a scan for the end of a text is.
#[derive(Clone, Copy, Debug, PartialEq, Eq)]
pub enum Place {
    /// Only CR and LF came, which may stand before a head (RFC 9112, section 2.2).
    Before,
    /// Within a line of a text that ends in an empty line, a head or trailers.
    Inside,
    /// At the start of such a line.
    Fresh,
    /// Behind a CR at the start of such a line.
    Return,
    /// In the line end behind the bytes of a chunk, which the next chunk line follows.
    Behind,
    /// In a chunk line, with which the text ends.
    Line,
}

/// Where the end of the text is.
#[derive(Clone, Copy, Debug, PartialEq, Eq)]
pub enum TextEnd {
    /// Behind so many bytes.
    Here(usize),
    /// Not in these bytes, behind which the scan is at this place.
    Later(Place),
}

impl Place {
    /// The place behind one more byte; none where the text ends with it.
    #[inline]
    pub fn step(self, byte: u8) -> Option<Place>
        ensures { result ≡ after_byte self byte }
    {
        match self {
            Place::Before if byte == b'\r' || byte == b'\n' => Some(Place::Before),
            Place::Inside if byte == b'\n' => Some(Place::Fresh),
            Place::Fresh if byte == b'\r' => Some(Place::Return),
            Place::Behind if byte == b'\n' => Some(Place::Line),
            Place::Behind => Some(Place::Behind),
            Place::Fresh | Place::Return | Place::Line if byte == b'\n' => None,
            Place::Line => Some(Place::Line),
            _ => Some(Place::Inside),
        }
    }

    /// Where a scan for the end of a chunk line begins: behind the bytes of a chunk the line end of
    /// these comes first.
    pub fn opening(behind: bool) -> Place
        ensures { result ≡ opening_start behind }
    {
        if behind { Place::Behind } else { Place::Line }
    }
}
