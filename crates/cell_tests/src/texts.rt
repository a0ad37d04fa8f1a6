use plain_data::{Copies, Listed, Memory, Text, Texts};
use std::alloc::Global;
use std::test::Fail;

fn texts(alloc: Global, words: &[&str]) -> Result<Texts, Memory> {
    let mut texts = Listed::new(alloc);
    for word in words {
        texts.push(Text::from_str(alloc, word)?)?;
    }
    Ok(texts)
}

/// Whether the first texts stand before the others, and are equal to their copy.
fn stand_before(alloc: Global, words: &[&str], others: &[&str]) -> Result<bool, Memory> {
    let words = texts(alloc, words)?;
    Ok(words < texts(alloc, others)? && words == words.copy(alloc)?)
}

/// Whether the last text goes out.
fn goes_last(alloc: Global, words: &[&str], last: &str) -> Result<bool, Memory> {
    let mut texts = texts(alloc, words)?;
    Ok(match texts.pop() {
        Some(text) => text.as_str() == last && texts.len() + 1 == words.len(),
        None => false,
    })
}

#[test]
fn texts_are_kept_in_order(rt: HostRuntime) -> Result<(), Fail> {
    assert!(rt; stand_before(rt.alloc(), &["b"], &["b", "a"])?);
    assert!(rt; stand_before(rt.alloc(), &["a", "c"], &["b"])?);
    assert!(rt; goes_last(rt.alloc(), &["b", "a"], "a")?);
    Ok(())
}

#[test]
fn want_of_memory_is_told(rt: HostRuntime) -> Result<(), Fail> {
    assert_eq!(rt; Memory.to_string(rt.alloc())?.as_str(), "out of memory");
    Ok(())
}
