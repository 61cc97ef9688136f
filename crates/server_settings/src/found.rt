//! What was found under a key that takes something else.
ghost use Rattle.std.specs.Prelude.{◌≡◌, IfOk, Some};
ghost use Rattle.toml.specs.View.{view};
ghost use Rattle.server_settings.specs.Faults.{found_in, found_text};

use express_words::{NoMemory, Text};
use std::alloc::Global;
use std::fmt;
use toml::Value;

/// What was found under a key.
#[derive(Drop)]
pub enum Found {
    /// A text.
    Text(Text),
    /// A whole number.
    Number(i64),
    /// A number that isn't whole.
    Float,
    /// `true` or `false`.
    Truth(bool),
    /// A date or a time.
    Moment,
    /// A list.
    List,
    /// A table.
    Table,
}

/// A text of its own with these bytes.
pub(crate) fn copied(alloc: Global, text: &str) -> Result<Text, NoMemory>
    ensures { IfOk result (λ copy. copy ≡ text.now) }
{
    Ok(Text::from_string(String::from_str(alloc, text)?))
}

impl Found {
    /// What this value is.
    pub(crate) fn of(alloc: Global, value: &Value) -> Result<Found, NoMemory>
        ensures { IfOk result (λ found. found ≡ found_in (view value.now)) }
    {
        match value {
            Value::String(text) => Ok(Found::Text(copied(alloc, text.as_str())?)),
            Value::Integer(number) => Ok(Found::Number(*number)),
            Value::Float(_) => Ok(Found::Float),
            Value::Boolean(truth) => Ok(Found::Truth(*truth)),
            Value::Datetime(_) => Ok(Found::Moment),
            Value::Array(_) => Ok(Found::List),
            Value::Table(_) => Ok(Found::Table),
        }
    }
}

impl fmt::Display for Found {
    ghost output = { λ found. Some (found_text found) };

    fn fmt<W: fmt::Write>(&self, f: &mut fmt::Formatter<W>) -> fmt::Result {
        match self {
            Found::Text(text) => {
                let text = text.as_str();
                write!(f, "\"{text}\"")
            }
            Found::Number(number) => write!(f, "{number}"),
            Found::Float => f.write_str("a number that isn't whole"),
            Found::Truth(true) => f.write_str("true"),
            Found::Truth(false) => f.write_str("false"),
            Found::Moment => f.write_str("a date or a time"),
            Found::List => f.write_str("a list"),
            Found::Table => f.write_str("a table"),
        }
    }
}
