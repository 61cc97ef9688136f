//! What calls told, beside what they should have told.
use std::test::Fail;

/// Fails with the text, where another is wanted.
pub fn is_told(text: Result<String, Fail>, wanted: &str) -> Result<(), Fail> {
    let text = text?;
    if text.as_str() == wanted {
        Ok(())
    } else {
        Err(Fail::new(text))
    }
}
