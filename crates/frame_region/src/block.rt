// A block of bytes that is read and written at a place. Raw pointers are in `array_at` and `put_array_at` alone.
ghost use Rattle.std.specs.Prelude.{◌≡◌, ◌+◌, ◌-◌, ◌≤◌, length, take, drop};
ghost use Rattle.std.specs.Int.{w32, from_le_bytes, to_le_bytes};
ghost use Rattle.frame_region.specs.Region.{overwritten};

// A piece of so many bytes is moved by a call of `memmove`, which has the widest moves of the machine; a loop
// over bytes has those of 16 bytes.
const PIECE: usize = 1024;

// The `N` bytes from `at` on.
fn array_at<const N: usize>(block: &[u8], at: usize) -> [u8; N]
    requires { at + N ≤ length block.now }
    ensures { result ≡ take N (drop at block.now) }
{
    let start = block.as_ptr();
    unsafe { *(start.add(at) as *const [u8; N]) }
}

// Writes an array over the bytes from `at` on.
fn put_array_at<const N: usize>(block: &mut [u8], at: usize, array: [u8; N])
    requires { at + N ≤ length block.old }
    ensures { block.new ≡ overwritten block.old at array.entry }
{
    let start = block.as_mut_ptr();
    unsafe {
        *(start.add(at) as *mut [u8; N]) = array;
    }
}

/// The link in the four bytes from `at` on, the lowest byte first.
pub fn read_link(block: &[u8], at: usize) -> u32
    requires { at + 4 ≤ length block.now }
    ensures { result ≡ from_le_bytes w32 (take 4 (drop at block.now)) }
{
    u32::from_le_bytes(array_at(block, at))
}

/// Writes a link into the four bytes from `at` on.
pub fn write_link(block: &mut [u8], at: usize, next: u32)
    requires { at + 4 ≤ length block.old }
    ensures { block.new ≡ overwritten block.old at (to_le_bytes w32 next) }
{
    put_array_at(block, at, next.to_le_bytes());
}

/// Copies the bytes from `start` on into `out` until it is full.
pub fn copy_out(block: &[u8], start: usize, out: &mut [u8])
    requires { start + length out.old ≤ length block.now }
    ensures { out.new ≡ take (length out.old) (drop start block.now) }
{
    let count = out.len();
    copy_bytes(block, start, out, 0, count);
}

/// Copies bytes over those from `start` on.
pub fn copy_in(block: &mut [u8], start: usize, source: &[u8])
    requires { start + length source.now ≤ length block.old }
    ensures { block.new ≡ overwritten block.old start source.now }
{
    copy_bytes(source, 0, block, start, source.len());
}

// Copies so many bytes of one slice, from `start` on, over those of another from `at` on.
fn copy_bytes(from: &[u8], start: usize, to: &mut [u8], at: usize, count: usize)
    requires source { start + count ≤ length from.now }
    requires room { at + count ≤ length to.old }
    ensures { to.new ≡ overwritten to.old at (take count (drop start from.now)) }
{
    let mut done = 0;
    while PIECE <= count - done {
        let piece: [u8; PIECE] = array_at(from, start + done);
        put_array_at(to, at + done, piece);
        done += PIECE;
    }
    copy_rest(from, start, to, at, done, count);
}

// The same of the bytes behind the first `done`, one by one.
fn copy_rest(from: &[u8], start: usize, to: &mut [u8], at: usize, done: usize, count: usize)
    requires done { done ≤ count }
    requires source { start + count ≤ length from.now }
    requires room { at + count ≤ length to.old }
    ensures { to.new ≡ overwritten to.old (at + done) (take (count - done) (drop (start + done) from.now)) }
{
    for i in done..count {
        to[at + i] = from[start + i];
    }
}
