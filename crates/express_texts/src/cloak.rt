//! The text of a game: a write to one of some addresses and another such write, and the server that looks.
ghost use Rattle.std.specs.Prelude.{◌≡◌, ◌≢◌, ℕ, ◌<◌, ◌≤◌, List as Listed, [], length, codes};
ghost use Rattle.std.specs.Prelude.{AllPairs, Contains};
ghost use Rattle.std.specs.Prelude.{IfOk, IfSome, Ok, Err, option_map};
ghost use Rattle.express_words.specs.Limits.{IsWidth};
ghost use Rattle.express_texts.specs.declared.cloak.CloakGame.{CloakGame};
ghost use Rattle.express_texts.specs.Fields.{value_line, key_line};
ghost use Rattle.express_texts.specs.GameJudging.{JudgesGame};
ghost use Rattle.express_texts.specs.GameLines.{line_at, addresses_on, form_of, registered, game_of};
ghost use Rattle.express_texts.specs.GameSpelling.{SpellsGame, IsFirstBadGameLine};
ghost use Rattle.express_texts.specs.Games.{game_header_of, target_at, aim_of, address_behind};
ghost use Rattle.express_texts.specs.Judging.{Gives};
ghost use Rattle.express_texts.specs.Lines.{lines_of};

use crate::digits::{message_of, seed_of, word_at};
use crate::fault::TextFault;
use crate::fields::{key_line, value_line};
use crate::lines::next_line;
use crate::numbers::number_at;
use crate::text_lines::first_line;
use crate::words::after;
use express_words::limits::{LEAST_WIDTH, MOST_WIDTH};
use express_words::{List, NoMemory};
use std::alloc::Global;

/// A game has at most so many addresses.
pub const MOST_ADDRESSES: usize = 4096;

/// Where a write goes, and what it puts there.
#[derive(Drop)]
pub struct AimText {
    /// One of the registered addresses.
    pub address: u128,
    /// As many bytes as the game's width.
    pub message: List<u8>,
}

/// What the first line of a game says.
#[derive(Clone, Copy, Debug, PartialEq, Eq)]
pub struct GameHeader {
    /// The server that looks: 0 or 1.
    pub viewer: u8,
    /// The bytes of a message.
    pub width: u32,
    /// What the choices of the first write are drawn from.
    pub seed: [u8; 32],
}

/// Two writes among registered addresses, one of which is to look like the other to one server.
#[derive(Drop)]
pub struct CloakGame {
    /// The server that looks: 0 or 1.
    pub viewer: u8,
    /// The bytes of a message.
    pub width: u32,
    /// What the choices of the first write are drawn from.
    pub seed: [u8; 32],
    /// The key of the challenges.
    pub ckey: [u8; 32],
    /// The proof's point.
    pub sigma: u128,
    /// The write on the line `from`.
    pub old_aim: AimText,
    /// The write on the line `to`.
    pub new_aim: AimText,
    /// The registered addresses, 1 to 4,096, all different.
    pub addresses: List<u128>,
}

// The header that a line spells.
#[tactic(auto, unfolding(crate::specs::Games::game_header_of))]
fn game_header_of(line: &[u8]) -> Option<GameHeader>
    ensures { result ≡ game_header_of line.now }
{
    let rest = after(b"cloak 1 ", line)?;
    let (viewer, rest) = number_at(0, 1, rest)?;
    let rest = after(b" ", rest)?;
    let (width, rest) = number_at(u64::from(LEAST_WIDTH), u64::from(MOST_WIDTH), rest)?;
    if width % 16 != 0 {
        return None;
    }
    let rest = after(b" ", rest)?;
    let seed = seed_of(rest)?;
    Some(GameHeader {
        viewer: viewer as u8,
        width: width as u32,
        seed,
    })
}

// The address of a line with this word, and what follows.
#[tactic(auto, unfolding(crate::specs::Games::target_at))]
fn target_at<'a>(word: &[u8], line: &'a [u8]) -> Option<(u128, &'a [u8])>
    ensures { option_map (λ r. (r.0, r.1.now)) result ≡ target_at word.now line.now }
{
    let rest = after(word, line)?;
    let (address, rest) = word_at(rest)?;
    let rest = after(b" ", rest)?;
    Some((address, rest))
}

// The aim of a line with this word.
#[tactic(auto, unfolding(crate::specs::Games::aim_of))]
fn aim_of(alloc: Global, word: &[u8], width: u32, line: &[u8]) -> Result<Option<AimText>, NoMemory>
    ensures { IfOk result (λ aim. aim ≡ aim_of word.now width line.now) }
{
    let Some((address, digits)) = target_at(word, line) else {
        return Ok(None);
    };
    let Some(message) = message_of(alloc, width, digits)? else {
        return Ok(None);
    };
    let message = List::from_vec(message);
    Ok(Some(AimText { address, message }))
}

// The address of a line behind those with these addresses.
#[tactic(auto, unfolding(crate::specs::Games::address_behind, crate::specs::Games::most_addresses))]
fn address_behind(before: &[u128], line: &[u8]) -> Option<u128>
    ensures address { result ≡ address_behind before.now line.now }
    ensures room { IfSome result (λ a. length before.now < MOST_ADDRESSES) }
{
    if before.len() >= MOST_ADDRESSES {
        return None;
    }
    let address = value_line(b"address ", line)?;
    if before.contains(&address) {
        None
    } else {
        Some(address)
    }
}

// The header on line 1, and the text behind it.
#[tactic(auto, unfolding(crate::specs::GameLines::line_at))]
fn header_at(text: &[u8]) -> Result<(GameHeader, &[u8]), TextFault>
    ensures { Gives (λ r. (r.0, lines_of r.1.now)) result (line_at 1 game_header_of (lines_of text.now)) }
{
    let (line, rest) = next_line(1, text)?;
    match game_header_of(line) {
        Some(header) => Ok((header, rest)),
        None => Err(TextFault::Wrong(1)),
    }
}

// The key of the challenges on line 2, and the text behind it.
#[tactic(auto, unfolding(crate::specs::GameLines::line_at))]
fn ckey_at(text: &[u8]) -> Result<([u8; 32], &[u8]), TextFault>
    ensures { Gives (λ r. (r.0, lines_of r.1.now)) result
        (line_at 2 (key_line (codes "ckey ")) (lines_of text.now)) }
{
    let (line, rest) = next_line(2, text)?;
    match key_line(b"ckey ", line) {
        Some(ckey) => Ok((ckey, rest)),
        None => Err(TextFault::Wrong(2)),
    }
}

// The proof's point on line 3, and the text behind it.
#[tactic(auto, unfolding(crate::specs::GameLines::line_at))]
fn sigma_at(text: &[u8]) -> Result<(u128, &[u8]), TextFault>
    ensures { Gives (λ r. (r.0, lines_of r.1.now)) result
        (line_at 3 (value_line (codes "sigma ")) (lines_of text.now)) }
{
    let (line, rest) = next_line(3, text)?;
    match value_line(b"sigma ", line) {
        Some(sigma) => Ok((sigma, rest)),
        None => Err(TextFault::Wrong(3)),
    }
}

// The aim on line `place`, which begins with this word, and the text behind it.
#[tactic(auto, unfolding(crate::specs::GameLines::line_at))]
fn aim_at<'a>(
    alloc: Global,
    place: u32,
    word: &[u8],
    width: u32,
    text: &'a [u8],
) -> Result<(AimText, &'a [u8]), TextFault>
    ensures { Gives (λ r. (r.0, lines_of r.1.now)) result
        (line_at place (aim_of word.now width) (lines_of text.now)) }
{
    let (line, rest) = next_line(place, text)?;
    match aim_of(alloc, word, width, line)? {
        Some(aim) => Ok((aim, rest)),
        None => Err(TextFault::Wrong(place)),
    }
}

// The addresses of all lines that are left.
fn read_addresses(alloc: Global, text: &[u8]) -> Result<List<u128>, TextFault>
    ensures { Gives (λ addresses. addresses) result (addresses_on [] (lines_of text.now)) }
{
    let mut addresses = Vec::new(alloc);
    let mut rest = text;
    while !rest.is_empty() {
        let (line, behind) = first_line(rest);
        let Some(address) = address_behind(&addresses, line) else {
            return Err(TextFault::Wrong(addresses.len() as u32 + 6));
        };
        addresses.push(address)?;
        rest = behind;
    }
    if addresses.is_empty() {
        return Err(TextFault::Wrong(6));
    }
    Ok(List::from_vec(addresses))
}

// The game of the text, whose targets may be unregistered.
#[tactic(auto, unfolding(crate::specs::GameLines::form_of))]
fn read_form(alloc: Global, text: &[u8]) -> Result<CloakGame, TextFault>
    ensures { Gives (λ game. game) result (form_of (lines_of text.now)) }
{
    let (header, rest) = header_at(text)?;
    let (ckey, rest) = ckey_at(rest)?;
    let (sigma, rest) = sigma_at(rest)?;
    let (old_aim, rest) = aim_at(alloc, 4, b"from ", header.width, rest)?;
    let (new_aim, rest) = aim_at(alloc, 5, b"to ", header.width, rest)?;
    let addresses = read_addresses(alloc, rest)?;
    let seed = header.seed;
    Ok(CloakGame {
        viewer: header.viewer,
        width: header.width,
        seed,
        ckey,
        sigma,
        old_aim,
        new_aim,
        addresses,
    })
}

// The game where both of its targets are registered.
#[tactic(auto, unfolding(crate::specs::GameLines::registered))]
fn registered(game: CloakGame) -> Result<CloakGame, TextFault>
    ensures { Gives (λ game. game) result (registered game) }
{
    if !game.addresses.as_slice().contains(&game.old_aim.address) {
        return Err(TextFault::Wrong(4));
    }
    if !game.addresses.as_slice().contains(&game.new_aim.address) {
        return Err(TextFault::Wrong(5));
    }
    Ok(game)
}

fn read_game(alloc: Global, text: &[u8]) -> Result<CloakGame, TextFault>
    ensures { Gives (λ game. game) result (game_of text.now) }
{
    let game = read_form(alloc, text)?;
    registered(game)
}

/// The game that the text spells, or the line to name: the first with a fault of form, or else line 4 or 5,
/// the first of them whose address isn't on an `address` line.
///
/// A game is the lines `cloak 1 VIEWER WIDTH SEED`, `ckey HEX`, `sigma HEX`, `from ADDRESS MESSAGE` and `to
/// ADDRESS MESSAGE`, and then 1 to 4,096 lines `address ADDRESS`, all different. Each line is ended by LF,
/// which the last may lack.
pub fn read_cloak(alloc: Global, text: &[u8]) -> Result<CloakGame, TextFault>
    ensures judges { JudgesGame text.now result }
    ensures game { Gives (λ game. game) result (game_of text.now) }
    ensures viewer { IfOk result (λ game. game.viewer ≤ 1) }
    ensures width { IfOk result (λ game. IsWidth game.width) }
    ensures old_message { IfOk result (λ game. length game.old_aim.message ≡ game.width) }
    ensures new_message { IfOk result (λ game. length game.new_aim.message ≡ game.width) }
    ensures distinct { IfOk result (λ game. AllPairs (λ p q. p ≢ q) game.addresses) }
    ensures old_registered { IfOk result (λ game. Contains game.addresses game.old_aim.address) }
    ensures new_registered { IfOk result (λ game. Contains game.addresses game.new_aim.address) }
{
    read_game(alloc, text)
}

/// A text is read as a game exactly where it spells it, and a line is named exactly where it is the one to
/// name.
pub fn game_is_read_exactly()
    ensures found { (text : Listed ℕ) (game : CloakGame) → game_of text ≡ Ok game → SpellsGame game text }
    ensures only { (text : Listed ℕ) (game : CloakGame) → SpellsGame game text → game_of text ≡ Ok game }
    ensures bad { (text : Listed ℕ) (n : ℕ) → game_of text ≡ Err n → IsFirstBadGameLine n text }
    ensures only_bad { (text : Listed ℕ) (n : ℕ) → IsFirstBadGameLine n text → game_of text ≡ Err n }
{}
