//! The settings that both servers and all clients share.
ghost use Rattle.std.specs.Prelude.{◌↔◌, ◌≡◌, IfSome, IsSome, IsTrue};
ghost use Rattle.express_words.specs.Limits.{KeepsLimits};

use crate::limits::{LEAST_WIDTH, MOST_BOXES, MOST_LANES, MOST_WIDTH, MOST_WINDOW};

/// Width of a message in bytes, number of boxes, number of lanes, and window of the link in commands.
#[derive(Clone, Copy, Debug, PartialEq, Eq)]
pub struct Settings {
    pub width: u32,
    pub boxes: u32,
    pub lanes: u16,
    pub window: u8,
    pub ghost limits: { KeepsLimits width boxes lanes window },
}

fn are_in_limits(width: u32, boxes: u32, lanes: u16, window: u8) -> bool
    ensures limits { IsTrue result ↔ KeepsLimits width boxes lanes window }
{
    let width_is_good = (LEAST_WIDTH..=MOST_WIDTH).contains(&width) && width % 16 == 0;
    let counts_are_good = (1..=MOST_BOXES).contains(&boxes) && (1..=MOST_LANES).contains(&lanes);
    width_is_good && counts_are_good && (1..=MOST_WINDOW).contains(&window)
}

impl Settings {
    ghost use Rattle.express_words.specs.Settled.{settled};

    /// The settings, if each keeps its limits: a width of 16 to 4,096 bytes that is a multiple of 16,
    /// 1 to 4,096 boxes, 1 to 256 lanes, and a window of 1 to 32 commands.
    #[tactic(auto, using(crate::proofs::SettledLaws::none_settle))]
    pub fn new(width: u32, boxes: u32, lanes: u16, window: u8) -> Option<Settings>
        ensures limits { IsSome result ↔ KeepsLimits width boxes lanes window }
        ensures value { result ≡ settled width boxes lanes window }
        ensures numbers { IfSome result (λ s. (s.width ≡ width) × (s.boxes ≡ boxes) × (s.lanes ≡ lanes)
            × (s.window ≡ window)) }
    {
        if are_in_limits(width, boxes, lanes, window) {
            Some(Settings {
                width,
                boxes,
                lanes,
                window,
            })
        } else {
            None
        }
    }
}
