use rgw_types::{Bytes, Items};

/// Rows of keys and values.
pub type ByteRows = Items<(Bytes, Bytes)>;

/// Rows in the order of their keys, and whether no row follows them.
#[derive(Debug, Drop)]
pub struct Page {
    pub rows: ByteRows,
    pub end: bool,
}
