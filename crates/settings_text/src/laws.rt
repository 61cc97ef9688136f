//! The laws of settings. Each function is empty: its contract is the law.
ghost use Rattle.std.specs.Prelude.{◌≡◌, ℕ, List, Ok, Err};
ghost use Rattle.settings_text.specs.Carry.{carry_of};
ghost use Rattle.settings_text.specs.CarrySpelling.{SpellsCarry, IsBadCarryKey};
ghost use Rattle.settings_text.specs.Client.{client_of};
ghost use Rattle.settings_text.specs.ClientSpelling.{SpellsClient, IsBadClientKey};
ghost use Rattle.settings_text.specs.Serve.{serve_of};
ghost use Rattle.settings_text.specs.ServeSpelling.{SpellsServe, IsBadServeKey};
ghost use Rattle.settings_text.specs.Tables.{judged};
ghost use Rattle.settings_text.specs.declared.carry.CarrySettings.{CarrySettings as OfCarry};
ghost use Rattle.settings_text.specs.declared.client.ClientSettings.{ClientSettings as OfClient};
ghost use Rattle.settings_text.specs.declared.serve.ServeSettings.{ServeSettings as OfServe};

/// A text is read as a server's settings exactly where it spells them, and a key is named exactly where it is the first
/// that is missing or wrong.
pub fn serve_is_read_exactly()
    ensures found { (text : List ℕ) (s : OfServe) → judged serve_of text ≡ Ok s → SpellsServe s text }
    ensures only { (text : List ℕ) (s : OfServe) → SpellsServe s text → judged serve_of text ≡ Ok s }
    ensures bad { (text key : List ℕ) → judged serve_of text ≡ Err key → IsBadServeKey key text }
    ensures only_bad { (text key : List ℕ) → IsBadServeKey key text → judged serve_of text ≡ Err key }
{}

/// A text is read as a client's settings exactly where it spells them, and a key is named exactly where it is the first
/// that is missing or wrong.
pub fn client_is_read_exactly()
    ensures found { (text : List ℕ) (s : OfClient) → judged client_of text ≡ Ok s → SpellsClient s text }
    ensures only { (text : List ℕ) (s : OfClient) → SpellsClient s text → judged client_of text ≡ Ok s }
    ensures bad { (text key : List ℕ) → judged client_of text ≡ Err key → IsBadClientKey key text }
    ensures only_bad { (text key : List ℕ) → IsBadClientKey key text → judged client_of text ≡ Err key }
{}

/// A text is read as a carrier's settings exactly where it spells them, and a key is named exactly where it is the first
/// that is missing or wrong.
pub fn carry_is_read_exactly()
    ensures found { (text : List ℕ) (s : OfCarry) → judged carry_of text ≡ Ok s → SpellsCarry s text }
    ensures only { (text : List ℕ) (s : OfCarry) → SpellsCarry s text → judged carry_of text ≡ Ok s }
    ensures bad { (text key : List ℕ) → judged carry_of text ≡ Err key → IsBadCarryKey key text }
    ensures only_bad { (text key : List ℕ) → IsBadCarryKey key text → judged carry_of text ≡ Err key }
{}
