use rgw_types::Text;
use script_words::{
    ActorName, ActorOutcome, Line, ScriptBody, Verb, push_bad_line, push_count_line,
    push_job_outcome, push_named_line, push_reply_line, push_request_outcome, read_line,
};
use std::alloc::{AllocError, Global};
use std::test::Fail;
use task_words::{JobOutcome, MapReply, Outcome, Refusal};

/// Whether a realm of two zones takes the text as a line.
fn is_line(alloc: Global, text: &str) -> Result<bool, AllocError> {
    let read = read_line(alloc, text.as_bytes(), 2)?;
    let found = read.is_some();
    drop(read);
    Ok(found)
}

#[test]
fn lines_and_what_is_none(rt: HostRuntime) -> Result<(), Fail> {
    for (text, is_one) in [
        ("clock 18446744073709551615", true),
        ("start w 1 put box/k hello", true),
        ("start w 3 put box/k hello", false),
        ("step w 4", true),
        ("step w +4", false),
        ("run\tw", true),
        ("run w ", false),
        ("do 2 get box/a/b", true),
        ("do 1 get /k", false),
        ("do 1 stat a/b", false),
        ("do 2 list box", true),
        ("do 1 list", false),
        ("do 1 list box 1", false),
        ("start c 2 check box", true),
        ("do 1 check", false),
        ("do 1 check a/b", false),
        ("do 1 put box/k *5368709120", true),
        ("do 1 put box/k *5368709121", false),
        ("jump", false),
        ("", false),
    ] {
        assert_eq!(rt; is_line(rt.alloc(), text)?, is_one, "{text}");
    }
    Ok(())
}

fn puts_nothing(verb: &Verb) -> bool {
    match verb {
        Verb::Put {
            container,
            name,
            body: ScriptBody::Word(bytes),
        } => container.as_text().is("box") && name.as_text().is("a/b") && bytes.is_empty(),
        _ => false,
    }
}

fn starts_that_put(line: &Line) -> bool {
    match line {
        Line::Start { actor, zone, verb } => {
            actor.as_text().is("w") && *zone == 1 && puts_nothing(verb)
        }
        _ => false,
    }
}

#[test]
fn a_put_and_its_actor(rt: HostRuntime) -> Result<(), Fail> {
    let read = read_line(rt.alloc(), b"start w 1 put box/a/b -", 1)?;
    let right = read.as_ref().is_some_and(|line| starts_that_put(line));
    drop(read);
    assert!(rt; right);
    Ok(())
}

fn is_reply(alloc: Global, outcome: Outcome, text: &str) -> Result<bool, AllocError> {
    let mut out = Vec::new(alloc);
    let end = push_request_outcome(&mut out, &outcome, b"");
    drop(outcome);
    end?;
    Ok(out.as_slice() == text.as_bytes())
}

#[test]
fn texts_of_faults(rt: HostRuntime) -> Result<(), Fail> {
    let alloc = rt.alloc();
    assert!(rt; is_reply(alloc, Outcome::Busy { id: 12 }, "503 Busy: 12")?);
    let no_space = Outcome::NoSpace { free: 0, needed: 1 };
    assert!(rt; is_reply(alloc, no_space, "507 No space: 0 of 1")?);
    let late = Outcome::LateRead {
        read_at: 1_000_000,
        clock: 11_000_000,
    };
    assert!(rt; is_reply(alloc, late, "late 1000000 11000000")?);
    let refused = Outcome::Done(MapReply::Refused(Refusal::NoObject));
    assert!(rt; is_reply(alloc, refused, "404 No such object")?);
    Ok(())
}

#[test]
fn texts_of_jobs(rt: HostRuntime) -> Result<(), Fail> {
    for (outcome, text) in [
        (
            JobOutcome::Repaired {
                applied: 2,
                left: 10,
            },
            "200 repaired=2 left=10",
        ),
        (JobOutcome::NoBucket, "404 No such container"),
    ] {
        let mut out = Vec::new(rt.alloc());
        push_job_outcome(&mut out, &outcome)?;
        assert_eq!(rt; out.as_slice(), text.as_bytes());
    }
    Ok(())
}

fn push_lines(out: &mut Vec<u8>, actor: &ActorName, outcome: &Outcome) -> Result<(), AllocError> {
    push_count_line(out, actor, 2)?;
    push_named_line(out, actor, ActorOutcome::Request(outcome), b"")?;
    push_reply_line(out, ActorOutcome::Job(&JobOutcome::NoBucket), b"")?;
    push_bad_line(out, 7)
}

fn printed_of(alloc: Global, actor: &ActorName) -> Result<Vec<u8>, AllocError> {
    let mut out = Vec::new(alloc);
    let busy = Outcome::Busy { id: 1 };
    let end = push_lines(&mut out, actor, &busy);
    drop(busy);
    end?;
    Ok(out)
}

#[test]
fn lines_that_are_printed(rt: HostRuntime) -> Result<(), Fail> {
    let actor = ActorName::new(Text::from_str(rt.alloc(), "h")?)
        .ok()
        .ok_or("no name")?;
    let printed = printed_of(rt.alloc(), &actor)?;
    assert_eq!(rt;
        printed.as_slice(),
        b"h 2\nh 503 Busy: 1\n404 No such container\nbad line 7\n".as_slice()
    );
    Ok(())
}
