ghost use Rattle.std.specs.Prelude.{◌≤◌};

use gw_io::{SliceSource, WholeSource};
use script_lines::{INPUT_LIMIT, LINE_LIMIT, LineFault, LineReader, Next};
use std::alloc::Global;
use std::test::Fail;

/// Whether the next line is this one.
fn next_is(
    reader: &mut LineReader,
    source: &mut SliceSource<'_>,
    line: &[u8],
) -> Result<bool, LineFault> {
    Ok(reader.next(source)? == Next::Line && reader.line() == line)
}

fn are_three(reader: &mut LineReader, source: &mut SliceSource<'_>) -> Result<bool, LineFault> {
    Ok(
        next_is(reader, source, b"run w")?
            && next_is(reader, source, b"")?
            && next_is(reader, source, b"stop")?
            && reader.next(source)? == Next::End
            && reader.line().is_empty(),
    )
}

fn reads_three(alloc: Global, piece: usize) -> Result<bool, Fail>
    requires { 1 ≤ piece }
{
    let mut source = SliceSource::new(b"run w\n\nstop", piece, &[]);
    let mut reader = LineReader::new(alloc)?;
    let right = are_three(&mut reader, &mut source);
    drop(reader);
    Ok(right?)
}

#[test]
fn lines_in_pieces(rt: HostRuntime) -> Result<(), Fail> {
    assert!(rt; reads_three(rt.alloc(), 1)?);
    assert!(rt; reads_three(rt.alloc(), 2)?);
    assert!(rt; reads_three(rt.alloc(), 100)?);
    Ok(())
}

/// Whether the second read fails, and the line that it was in is read after it.
fn fails_in_a_line(
    reader: &mut LineReader,
    source: &mut SliceSource<'_>,
) -> Result<bool, LineFault> {
    Ok(
        reader.next(source)? == Next::Line
            && reader.next(source) == Err(LineFault::ReadFault)
            && next_is(reader, source, b"stop w")?,
    )
}

#[test]
fn a_read_that_fails_in_a_line(rt: HostRuntime) -> Result<(), Fail> {
    let mut source = SliceSource::new(b"run w\nstop w\n", 4, &[2]);
    let mut reader = LineReader::new(rt.alloc())?;
    let right = fails_in_a_line(&mut reader, &mut source);
    drop(reader);
    assert!(rt; right?);
    Ok(())
}

#[test]
fn a_line_has_at_most_1048576_bytes(rt: HostRuntime) -> Result<(), Fail> {
    for (count, next) in [(1_048_576, Next::Line), (1_048_577, Next::TooLong)] {
        let text = "x".repeat(rt.alloc(), count)?;
        let mut source = WholeSource::new(text.as_bytes());
        let mut reader = LineReader::new(rt.alloc())?;
        assert_eq!(rt; reader.next(&mut source)?, next, "at {count}");
    }
    Ok(())
}

#[test]
fn the_limits_of_lines_and_inputs(rt: HostRuntime) -> Result<(), Fail> {
    assert_eq!(rt; LINE_LIMIT, 1_048_576);
    assert_eq!(rt; INPUT_LIMIT, 1_073_741_824);
    Ok(())
}
