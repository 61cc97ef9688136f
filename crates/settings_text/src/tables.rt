//! The table of a text.
ghost use Rattle.std.specs.Prelude.{◌≡◌};
ghost use Rattle.toml.specs.View.{table_view};
ghost use Rattle.settings_text.specs.Judging.{Gives};
ghost use Rattle.settings_text.specs.Tables.{read_table};

use crate::faults::wrong_key;
use express_texts::TextFault;
use std::alloc::Global;
use toml::Table;

/// The table that the text spells.
pub fn table_of(alloc: Global, text: &[u8]) -> Result<Table, TextFault>
    ensures { Gives table_view result (read_table text.now) }
{
    match toml::table_from_slice(alloc, text) {
        Ok(table) => Ok(table),
        Err(fault) if fault.is_memory() => Err(TextFault::NoMemory),
        Err(_) => Err(wrong_key(alloc, "toml")),
    }
}
