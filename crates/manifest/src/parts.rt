use rgw_types::Items;

/// Bytes of one part of an object. Part 0 is the head, and part k the tail k.
#[derive(Clone, Copy, Debug, PartialEq, Eq)]
pub struct Part {
    pub part: u32,
    /// The first of the bytes, counted from the part's own first byte.
    pub start: u64,
    pub count: u64,
}

/// Parts in order.
pub type Parts = Items<Part>;
