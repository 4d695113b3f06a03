use object_words::{BucketName, MediaType, ObjectName};
use rgw_types::Text;
use std::alloc::{AllocError, Global};
use std::test::Fail;

/// Whether the text is the name of an object.
fn names_an_object(alloc: Global, text: &str) -> Result<bool, AllocError> {
    let made = ObjectName::new(Text::from_str(alloc, text)?);
    let is_name = made.is_ok();
    drop(made);
    Ok(is_name)
}

/// Whether the text is the name of a container.
fn names_a_container(alloc: Global, text: &str) -> Result<bool, AllocError> {
    let made = BucketName::new(Text::from_str(alloc, text)?);
    let is_name = made.is_ok();
    drop(made);
    Ok(is_name)
}

#[test]
fn names_of_objects(rt: HostRuntime) -> Result<(), Fail> {
    for (text, taken) in [("k", true), ("a/b", true), ("", false), ("a\0b", false)] {
        assert_eq!(rt; names_an_object(rt.alloc(), text)?, taken, "{text}");
    }
    Ok(())
}

#[test]
fn a_copy_of_a_name(rt: HostRuntime) -> Result<(), Fail> {
    let text = Text::from_str(rt.alloc(), "a/b")?;
    let name = ObjectName::new(text).ok().ok_or("no name")?;
    assert!(rt; name.clone()?.into_text().is("a/b"));
    Ok(())
}

#[test]
fn the_longest_names(rt: HostRuntime) -> Result<(), Fail> {
    for (count, object, container) in [
        (256, true, true),
        (257, true, false),
        (1024, true, false),
        (1025, false, false),
    ] {
        let text = "x".repeat(rt.alloc(), count)?;
        let is_container = names_a_container(rt.alloc(), &text)?;
        assert_eq!(rt; is_container, container, "at {count}");
        let is_object = names_an_object(rt.alloc(), &text)?;
        assert_eq!(rt; is_object, object, "at {count}");
    }
    Ok(())
}

#[test]
fn a_copy_of_a_type(rt: HostRuntime) -> Result<(), Fail> {
    let text = Text::from_str(rt.alloc(), "text/plain")?;
    let kind = MediaType::new(text).ok().ok_or("too long")?;
    assert!(rt; kind.clone()?.into_text().is("text/plain"));
    Ok(())
}

#[test]
fn the_absent_type(rt: HostRuntime) {
    assert!(rt; MediaType::absent(rt.alloc()).as_text().is_empty());
}
