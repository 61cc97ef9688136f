//! The laws of entries. The functions are empty: their contracts are the laws.
ghost use Rattle.std.specs.Prelude.{◌≡◌, ◌≤◌, ◌++◌, ◌∷◌, [], List, length, map};
ghost use Rattle.std.specs.List.{AllPairs};
ghost use Rattle.desk_entries.specs.Letters.{Differ, ShownAreSeen, letters_of, told_with, unseen_of, written_of};
ghost use Rattle.desk_entries.specs.Records.{AreEntries, IsEntry, entry_record};
ghost use Rattle.desk_entries.specs.declared.entry.Entry.{Entry};

/// A record tells the entry whose record it is, and so do the records of a list of entries.
pub fn records_tell()
    ensures one { (a b : Entry) → IsEntry a → IsEntry b → entry_record a ≡ entry_record b → a ≡ b }
    ensures lists { (a b : List Entry) → AreEntries a → AreEntries b
        → map entry_record a ≡ map entry_record b → a ≡ b }
{}

/// An entry more changes nothing of the letters before it, and no two letters have one id.
pub fn letters_are_told_once()
    ensures grows { (entries : List Entry) (e : Entry)
        → letters_of (entries ++ e ∷ []) ≡ told_with (letters_of entries) e }
    ensures once { (entries : List Entry) → AllPairs Differ (letters_of entries) }
{}

/// No letter is unseen for ever: none is once all are written into files, or once all were shown, where each is
/// a text.
pub fn letters_are_seen_at_last()
    ensures written { (entries : List Entry) → length (letters_of entries) ≤ written_of entries
        → unseen_of entries ≡ 0 }
    ensures shown { (entries : List Entry) → ShownAreSeen entries }
{}
