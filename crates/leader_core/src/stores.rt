//! The leader's stores.
use crate::commands::Commands;
use crate::slot::LeaderSlot;
use express_words::Settings;
use server_boxes::ServerBoxes;

/// Server 0's boxes and shares, what it holds of each lane, and its outstanding commands.
#[derive(Drop)]
pub(crate) struct LeaderStores {
    pub(crate) settings: Settings,
    pub(crate) boxes: ServerBoxes,
    pub(crate) slots: Vec<LeaderSlot>,
    pub(crate) link: Commands,
    pub(crate) draws: u64,
    pub(crate) seed: [u8; 32],
}
