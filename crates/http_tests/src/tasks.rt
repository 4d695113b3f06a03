// What no clause says: that the calls run.
use rgw_types::Text;
use std::test::Fail;
use swift_auth::{Deed, Users};
use task_words::{Asker, ByteRange, Refusal, Span, bytes_taken};

#[test]
fn ranges_are_taken(rt: HostRuntime) -> Result<(), Fail> {
    let taken = ByteRange {
        start: 15,
        count: 2,
    };
    assert_eq!(rt; bytes_taken(Some(Span::Between(15, 16)), 26), Some(taken));
    assert_eq!(rt; bytes_taken(Some(Span::From(26)), 26), None);
    Ok(())
}

#[test]
fn askers_are_refused_without_a_row(rt: HostRuntime) -> Result<(), Fail> {
    let users = Users::standard(rt.alloc())?;
    let ann = Asker {
        account: Text::from_str(rt.alloc(), "acme")?,
        user: Some(users.first().clone()?),
    };
    assert_eq!(rt;
        ann.refusal(None, Deed::ChangeThing),
        Some(Refusal::NoContainer)
    );
    Ok(())
}
