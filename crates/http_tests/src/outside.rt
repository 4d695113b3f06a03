// The outside in memory, the standard streams and the system's clock.
mod adapters;
mod clocks;
mod largest;
mod pieces;

use gw_io::{Failed, Source};

fn read_one<S: Source>(source: &mut S, buf: &mut [u8]) -> Result<usize, Failed> {
    source.read(buf)
}

// What may go to another thread.
fn sent<T: Send>(value: T) -> T {
    value
}
