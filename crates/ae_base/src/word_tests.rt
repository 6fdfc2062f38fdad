//! A name and its copy, and what is left where there is no memory for it.

use crate::words::Word;
use std::test::Fail;

#[test]
fn names(rt: HostRuntime) -> Result<(), Fail> {
    let word = Word::from_string(String::from_str(rt.alloc(), "sum")?);
    let copy = word.copy(rt.alloc())?;
    assert!(rt; word.as_str() == "sum");
    assert!(rt; copy.as_str() == "sum");
    let text = word.into_string();
    assert!(rt; text.as_str() == "sum");
    Ok(())
}
