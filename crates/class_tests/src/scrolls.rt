//! The count of a realm's events.
use event_scroll::Scroll;
use std::marker::Brand;
use std::test::Fail;

#[test]
fn notes_are_counted(rt: HostRuntime) -> Result<(), Fail> {
    let mut scroll = Scroll::new(rt.alloc())?;
    assert!(rt; scroll.is_empty());
    scroll.note::<Brand>();
    scroll.note::<Brand>();
    assert_eq!(rt; scroll.len(), 2);
    Ok(())
}
