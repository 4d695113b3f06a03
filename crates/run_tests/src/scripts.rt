//! Known scripts. What they print was counted by hand, from the rules of the language and the events of each request.
use gw_io::{SliceSource, VecSink};
use object_words::BucketName;
use realm_core::Realm;
use realm_model::Settings;
use rgw_script::{ScriptFault, ScriptPlan, run_script};
use rgw_types::Text;
use std::alloc::Global;
use std::test::Fail;
use swift_auth::Users;

/// A race for one name that `a` loses, and a line that is none.
const LOST_RACE: &[u8] =
    b"start a 1 put box/k hello\nstart b 1 put box/k -\nstep a 4\nstep b 4\nrun b\nrun a\ndo 1 stat box\njump\ndo 1 stat box\n";

const LOST_RACE_PRINTS: &[u8] =
    b"a 4\nb 4\nb 201 d41d8cd98f00b204e9800998ecf8427e\na 201 5d41402abc4b2a76b9719d911017c592\n200 objects=1 bytes=0\nbad line 8\n";

/// A tag that expires before the head is written.
const EXPIRED_TAG: &[u8] =
    b"start w 1 put box/k hello\nstep w 3\nclock 120000000\nrun w\ndo 1 get box/k";

const EXPIRED_TAG_PRINTS: &[u8] = b"w 3\nw 201 5d41402abc4b2a76b9719d911017c592\n200 5 hello\n";

/// A listing while a name is written: before its head, and between head and completion.
const LISTED: &[u8] =
    b"do 1 put box/a/1 -\ndo 1 put box/b -\nstart w 1 put box/c hello\nstep w 3\ndo 1 list box\nstep w 1\ndo 1 list box\n";

const LISTED_PRINTS: &[u8] =
    b"201 d41d8cd98f00b204e9800998ecf8427e\n201 d41d8cd98f00b204e9800998ecf8427e\nw 3\n200 a/1 b\nw 1\n200 a/1 b c\n";

/// A writer that stops behind its head is repaired once its tag is due.
const STOPPED_WRITER: &[u8] =
    b"clock 1000000\nstart w 1 put box/k hello\nstep w 4\nstop w\ndo 1 list box\ndo 1 stat box\nclock 121000000\ndo 1 check box\ndo 1 stat box\n";

const STOPPED_WRITER_PRINTS: &[u8] =
    b"w 4\n200 k\n200 objects=0 bytes=0\n200 repaired=1 left=0\n200 objects=1 bytes=5\n";

/// A check whose page is old by the time that it suggests.
const LATE_SUGGESTION: &[u8] =
    b"start w 1 put box/k hello\nstep w 4\nstop w\nclock 120000000\nstart c 1 check box\nstep c 3\ndo 1 put box/k -\nrun c\ndo 1 stat box\ndo 1 check box\ndo 1 check jar\n";

const LATE_SUGGESTION_PRINTS: &[u8] =
    b"w 4\nc 3\n201 d41d8cd98f00b204e9800998ecf8427e\nc 200 repaired=0 left=1\n200 objects=1 bytes=0\n200 repaired=1 left=0\n404 No such container\n";

/// What a script prints that is read and written in pieces, and how it ends.
fn printed_by(alloc: Global, script: &[u8]) -> Result<(Vec<u8>, Result<(), ScriptFault>), Fail> {
    let settings = Settings::new(
        1,
        4_194_304,
        4096,
        64,
        1,
        120_000_000,
        7_200_000_000,
        5_368_709_120,
        100_000,
    )
    .ok_or("no settings")?;
    let mut realm = Realm::new(alloc, &settings).ok().ok_or("no realm")?;
    let name = Text::from_str(alloc, "box")?;
    let plan = ScriptPlan {
        bucket: BucketName::new(name).ok(),
        moment: 0,
        users: Users::standard(alloc).ok().ok_or("no users")?,
    };
    let mut input = SliceSource::new(script, 7, &[]);
    let mut output = VecSink::new(alloc, 5, &[]);
    let end = run_script(alloc, &settings, &plan, &mut realm, &mut input, &mut output);
    Ok((output.into_bytes(), end))
}

#[test]
fn a_lost_race_and_a_bad_line(rt: HostRuntime) -> Result<(), Fail> {
    let (printed, end) = printed_by(rt.alloc(), LOST_RACE)?;
    assert!(rt; printed.as_slice() == LOST_RACE_PRINTS);
    assert_eq!(rt; end, Err(ScriptFault::BadLine { line: 8 }));
    Ok(())
}

#[test]
fn a_tag_expires(rt: HostRuntime) -> Result<(), Fail> {
    let (printed, end) = printed_by(rt.alloc(), EXPIRED_TAG)?;
    assert!(rt; printed.as_slice() == EXPIRED_TAG_PRINTS);
    assert_eq!(rt; end, Ok(()));
    Ok(())
}

#[test]
fn a_stopped_writer_is_repaired(rt: HostRuntime) -> Result<(), Fail> {
    let (printed, end) = printed_by(rt.alloc(), STOPPED_WRITER)?;
    assert!(rt; printed.as_slice() == STOPPED_WRITER_PRINTS);
    assert_eq!(rt; end, Ok(()));
    Ok(())
}

#[test]
fn a_late_suggestion_is_refused(rt: HostRuntime) -> Result<(), Fail> {
    let (printed, end) = printed_by(rt.alloc(), LATE_SUGGESTION)?;
    assert!(rt; printed.as_slice() == LATE_SUGGESTION_PRINTS);
    assert_eq!(rt; end, Ok(()));
    Ok(())
}

#[test]
fn names_with_slashes_are_listed(rt: HostRuntime) -> Result<(), Fail> {
    let (printed, end) = printed_by(rt.alloc(), LISTED)?;
    assert!(rt; printed.as_slice() == LISTED_PRINTS);
    assert_eq!(rt; end, Ok(()));
    Ok(())
}
