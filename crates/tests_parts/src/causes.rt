//! The causes of a drop of model_router, each call once.
use model_router::DropName;
use std::test::Fail;

/// Whether a cause stands at this place, with this word.
fn is_named(cause: DropName, place: usize, word: &str) -> bool {
    cause.place() == place && cause.word() == word
}

#[test]
fn names_of_causes(rt: HostRuntime) -> Result<(), Fail> {
    let (first, last) = (DropName::Frame, DropName::StoreFull);
    assert!(rt; is_named(first, 0, "frame") && is_named(last, 20, "store-full"));
    assert!(rt; is_named(DropName::Version, 1, "version"));
    assert!(rt; is_named(DropName::OldBoot, 12, "old-boot"));
    let words = format!(in rt.alloc(); "{first} {last}")?;
    assert_eq!(rt; words.as_str(), "frame store-full");
    Ok(())
}
