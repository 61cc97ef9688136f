//! The header, judged field by field.
ghost use Rattle.std.specs.Prelude.{◌≤◌, length, OnOk, IfOk};
ghost use Rattle.frame_rules.specs.Forms.{Gives};
ghost use Rattle.frame_rules.specs.Reading.{length_in, version_in, kind_in, serial_in, link_in, header_in};

use crate::fields::{u8_at, u16_at, u32_at, u64_at};
use crate::kinds::{is_linked, kind_numbered, version_of};
use frame_rules::{FrameFault, Kind};

/// A frame's header, with the number of bytes that its length leaves for the body.
#[derive(Drop)]
pub struct Header {
    pub kind: Kind,
    pub lane: u16,
    pub serial: u32,
    pub link: u64,
    pub left: usize,
}

#[tactic(auto, unfolding(frame_rules::specs::Reading::length_in))]
fn length_in(bytes: &[u8]) -> Result<u32, FrameFault>
    ensures given { Gives (λ n. n) result (length_in bytes.now) }
    ensures limits { IfOk result (λ n. (17 ≤ n) × (n ≤ 8209)) }
{
    let length = u32_at(bytes, 0)?;
    if length < 17 || length > 8209 {
        return Err(FrameFault::Malformed(0));
    }
    Ok(length)
}

#[tactic(auto, unfolding(frame_rules::specs::Reading::version_in))]
fn version_in(bytes: &[u8]) -> Result<u8, FrameFault>
    ensures { Gives (λ n. n) result (version_in bytes.now) }
{
    let version = u8_at(bytes, 4)?;
    if version != 1 && version != 2 {
        return Err(FrameFault::Version(version));
    }
    Ok(version)
}

#[tactic(auto, unfolding(frame_rules::specs::Reading::kind_in))]
fn kind_in(version: u8, bytes: &[u8]) -> Result<Kind, FrameFault>
    ensures { Gives (λ k. k) result (kind_in version bytes.now) }
{
    let number = u8_at(bytes, 5)?;
    match kind_numbered(number) {
        None => Err(FrameFault::Malformed(5)),
        Some(kind) => {
            if version_of(kind) == version {
                Ok(kind)
            } else {
                Err(FrameFault::Malformed(5))
            }
        }
    }
}

#[tactic(auto, unfolding(frame_rules::specs::Reading::serial_in))]
fn serial_in(kind: Kind, bytes: &[u8]) -> Result<u32, FrameFault>
    ensures { Gives (λ n. n) result (serial_in kind bytes.now) }
{
    let serial = u32_at(bytes, 8)?;
    if serial == 0 && kind != Kind::Refused {
        return Err(FrameFault::Malformed(8));
    }
    Ok(serial)
}

#[tactic(auto, unfolding(frame_rules::specs::Reading::link_in))]
fn link_in(kind: Kind, bytes: &[u8]) -> Result<u64, FrameFault>
    ensures given { Gives (λ n. n) result (link_in kind bytes.now) }
    ensures whole { OnOk result (20 ≤ length bytes.now) }
{
    let link = u64_at(bytes, 12)?;
    if is_linked(kind) == (link == 0) {
        return Err(FrameFault::Malformed(12));
    }
    Ok(link)
}

impl Header {
    ghost use Rattle.wire_frames.specs.Headers.{seen};

    /// The header that these bytes begin with, or the first fault in it.
    #[tactic(auto, unfolding(frame_rules::specs::Reading::header_in))]
    pub fn of(bytes: &[u8]) -> Result<Header, FrameFault>
        ensures given { Gives seen result (header_in bytes.now) }
        ensures whole { OnOk result (20 ≤ length bytes.now) }
        ensures left { IfOk result (λ h. (1 ≤ h.left) × (h.left ≤ 8193)) }
    {
        let length = length_in(bytes)?;
        let version = version_in(bytes)?;
        let kind = kind_in(version, bytes)?;
        let lane = u16_at(bytes, 6)?;
        let serial = serial_in(kind, bytes)?;
        let link = link_in(kind, bytes)?;
        let left = length as usize - 16;
        Ok(Header {
            kind,
            lane,
            serial,
            link,
            left,
        })
    }
}
