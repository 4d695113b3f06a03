// The first bytes of strings, as numbers that are in the order of the strings.
ghost use Rattle.std.specs.Prelude.{◌≡◌, ◌+◌, ◌*◌, ◌<◌, ◌≤◌, length, drop};
ghost use Rattle.byte_order.specs.Words.{IsWord, byte_at};

/// The first eight bytes of the string, the first of them highest, with zeros past its end.
pub fn head_of(bytes: &[u8]) -> u64
    ensures { IsWord bytes.now result }
{
    if 8 <= bytes.len() {
        return word_at(bytes, 0);
    }
    let high = join(
        byte(bytes, 0),
        byte(bytes, 1),
        byte(bytes, 2),
        byte(bytes, 3),
    );
    let low = join(
        byte(bytes, 4),
        byte(bytes, 5),
        byte(bytes, 6),
        byte(bytes, 7),
    );
    u64::from(high) * 0x1_0000_0000 + u64::from(low)
}

// The eight bytes of the string from a place on, in one step.
pub(crate) fn word_at(bytes: &[u8], at: usize) -> u64
    requires { at + 8 ≤ length bytes.now }
    ensures { IsWord (drop at bytes.now) result }
{
    u64::from_be_bytes(*bytes[at..at + 8].as_array::<8>().unwrap())
}

// The byte at a place of the string, or 0 past its end.
fn byte(bytes: &[u8], at: usize) -> u8
    ensures value { result ≡ byte_at bytes.now at }
    ensures bound { result < 256 }
{
    match bytes.get(at) {
        Some(byte) => *byte,
        None => 0,
    }
}

// The number of four bytes, the first of them highest.
fn join(first: u8, second: u8, third: u8, fourth: u8) -> u32
    ensures { result ≡ ((first * 256 + second) * 256 + third) * 256 + fourth }
{
    let high = u32::from(first) * 256 + u32::from(second);
    let low = u32::from(third) * 256 + u32::from(fourth);
    high * 0x1_0000 + low
}
