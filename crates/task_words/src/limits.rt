/// So many answers Moved or Closed end a task.
pub const MOST_MOVED: u32 = 16;

/// So many answers Expired end a task.
pub const MOST_EXPIRED: u32 = 3;

/// A task asks for pages of so many entries of an index.
pub const PAGE_LIMIT: u32 = 1000;
