//! The fault of a key.
ghost use Rattle.settings_text.specs.Judging.{Names};

use express_texts::TextFault;
use express_words::Text;
use std::alloc::Global;

/// That this key is missing or wrong, or want of memory for its name.
pub fn wrong_key(alloc: Global, key: &str) -> TextFault
    ensures { Names key.now result }
{
    match String::from_str(alloc, key) {
        Ok(key) => TextFault::WrongKey(Text::from_string(key)),
        Err(_) => TextFault::NoMemory,
    }
}
