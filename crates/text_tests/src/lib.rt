//! Tests of public calls. Words, frames and texts: limits, the outside in memory, each kind of frame, and what the
//! readers take and refuse.
#![tactic(auto)]

#[cfg(test)]
mod batches;
#[cfg(test)]
mod cards;
#[cfg(test)]
mod files;
#[cfg(test)]
mod frame_rows;
#[cfg(test)]
mod frames;
#[cfg(test)]
mod games;
#[cfg(test)]
mod joined;
#[cfg(test)]
mod letters;
#[cfg(test)]
mod outside;
#[cfg(test)]
mod schedules;
#[cfg(test)]
mod settings;
#[cfg(test)]
mod sheets;
#[cfg(test)]
mod shown_letters;
#[cfg(test)]
mod told;
#[cfg(test)]
mod words;
