//! The lines of a script, from their texts.
ghost use Rattle.std.specs.Prelude.{◌≡◌, ◌==◌, ◌||◌, IfOk, IfSome, Ok, None, map};
ghost use Rattle.script_words.specs.declared.line.Line.{Line as LineOf};
ghost use Rattle.script_words.specs.Lines.{is_blank, words_of, IsLine};
ghost use Rattle.script_words.specs.Reading.{Reads, clock_in, start_in, step_in, run_in, stop_in, do_in, line_in};

use crate::Line;
use crate::no_line::NoLine;
use crate::verbs::verb_in;
use crate::words::{actor_in, is, number_in, zone_in};
use std::alloc::{AllocError, Global};

/// Whether the byte parts words.
fn is_blank(byte: u8) -> bool
    ensures { result ≡ is_blank byte }
{
    byte == b' ' || byte == b'\t'
}

/// The words of a line.
fn words_of<'a>(alloc: Global, line: &'a [u8]) -> Result<Vec<&'a [u8]>, AllocError>
    ensures { IfOk result (λ words. map (λ word. word.now) words.items ≡ words_of line.now) }
{
    let mut words = Vec::new(alloc);
    for word in line.split(|byte| is_blank(*byte)) {
        words.push(word)?;
    }
    Ok(words)
}

fn clock_in(words: &[&[u8]]) -> Result<Line, NoLine>
    ensures { Reads result (clock_in (map (λ word. word.now) words.now)) }
{
    let [number] = words else {
        return Err(NoLine::Bad);
    };
    Ok(Line::Clock(number_in(number).ok_or(NoLine::Bad)?))
}

fn start_in(alloc: Global, words: &[&[u8]], zones: u8) -> Result<Line, NoLine>
    ensures { Reads result (start_in zones (map (λ word. word.now) words.now)) }
{
    let [actor, zone, verb @ ..] = words else {
        return Err(NoLine::Bad);
    };
    Ok(Line::Start {
        actor: actor_in(alloc, actor)?,
        zone: zone_in(zone, zones).ok_or(NoLine::Bad)?,
        verb: verb_in(alloc, verb)?,
    })
}

fn step_in(alloc: Global, words: &[&[u8]]) -> Result<Line, NoLine>
    ensures { Reads result (step_in (map (λ word. word.now) words.now)) }
{
    let [actor, number] = words else {
        return Err(NoLine::Bad);
    };
    Ok(Line::Step {
        actor: actor_in(alloc, actor)?,
        events: number_in(number).ok_or(NoLine::Bad)?,
    })
}

fn run_in(alloc: Global, words: &[&[u8]]) -> Result<Line, NoLine>
    ensures { Reads result (run_in (map (λ word. word.now) words.now)) }
{
    let [actor] = words else {
        return Err(NoLine::Bad);
    };
    Ok(Line::Run(actor_in(alloc, actor)?))
}

fn stop_in(alloc: Global, words: &[&[u8]]) -> Result<Line, NoLine>
    ensures { Reads result (stop_in (map (λ word. word.now) words.now)) }
{
    let [actor] = words else {
        return Err(NoLine::Bad);
    };
    Ok(Line::Stop(actor_in(alloc, actor)?))
}

fn do_in(alloc: Global, words: &[&[u8]], zones: u8) -> Result<Line, NoLine>
    ensures { Reads result (do_in zones (map (λ word. word.now) words.now)) }
{
    let [zone, verb @ ..] = words else {
        return Err(NoLine::Bad);
    };
    Ok(Line::Do {
        zone: zone_in(zone, zones).ok_or(NoLine::Bad)?,
        verb: verb_in(alloc, verb)?,
    })
}

/// The line that the words are.
fn line_in(alloc: Global, words: &[&[u8]], zones: u8) -> Result<Line, NoLine>
    ensures { Reads result (line_in zones (map (λ word. word.now) words.now)) }
{
    let [command, arguments @ ..] = words else {
        return Err(NoLine::Bad);
    };
    if is(command, "clock") {
        clock_in(arguments)
    } else if is(command, "start") {
        start_in(alloc, arguments, zones)
    } else if is(command, "step") {
        step_in(alloc, arguments)
    } else if is(command, "run") {
        run_in(alloc, arguments)
    } else if is(command, "stop") {
        stop_in(alloc, arguments)
    } else if is(command, "do") {
        do_in(alloc, arguments, zones)
    } else {
        Err(NoLine::Bad)
    }
}

/// The line of a script that a text is, without its line feed, in a realm of so many zones; none where it is no
/// line.
///
/// Its words are parted by one space or one tab. The lines are `clock N`, `start A Z VERB ARGS`, `step A N`,
/// `run A`, `stop A` and `do Z VERB ARGS`, the verbs `put C/O BODY`, `get C/O`, `stat C`, `list C` and `check C`.
/// A number has 1 to 20 digits and fits in 64 bits, a zone is one digit, an actor has 1 to 16 letters and digits.
/// The names of containers and objects are UTF-8 within the limits of the Swift API, and that of a container has no
/// slash. A body is a word, `-` for no bytes, or `*N` for N times the letter `x`, N at most 5368709120.
pub fn read_line(alloc: Global, line: &[u8], zones: u8) -> Result<Option<Line>, AllocError>
    ensures some { IfOk result (λ read. IfSome read (IsLine zones line.now)) }
    ensures none { result ≡ Ok None → (meant : LineOf) → ¬ (IsLine zones line.now meant) }
{
    let words = words_of(alloc, line)?;
    match line_in(alloc, words.as_slice(), zones) {
        Ok(asked) => Ok(Some(asked)),
        Err(NoLine::Bad) => Ok(None),
        Err(NoLine::OutOfMemory) => Err(AllocError),
    }
}
