//! What a carrier asks.
ghost use Rattle.std.specs.Prelude.{◌≡◌, ◌<◌, ◌≤◌, ◌-◌, length, map, IfOk};
ghost use Rattle.std.specs.List.{range_with_len};
ghost use Rattle.file_carry.specs.Parts.{IsPartWidth, count_of, part_of};
ghost use Rattle.settings_text.specs.declared.requests.Asking.TheVariants.{Read};
ghost use Rattle.client_run.specs.Carrying.{IsCarrier, askings_of, writes_of};

use express_words::{List, NoMemory};
use file_carry::cut_into;
use settings_text::{Asking, CarryJob, CarrySettings};
use std::alloc::Global;

// The part of this index.
fn part_of(
    alloc: Global,
    file: &[u8],
    id: u64,
    width: u32,
    index: u32,
) -> Result<List<u8>, NoMemory>
    requires width { IsPartWidth width }
    requires count { count_of (length file.now) (width - 16) ≤ 4096 }
    requires index { index < count_of (length file.now) (width - 16) }
    ensures { IfOk result (λ part. part ≡ part_of file.now id width index) }
{
    let mut part = vec![in alloc; 0u8; width as usize]?;
    cut_into(file, id, index, &mut part);
    Ok(List::from_vec(part))
}

// To write each part of the file to its address.
fn writes_of(
    alloc: Global,
    width: u32,
    file: &[u8],
    id: u64,
    addresses: &[u128],
) -> Result<Vec<Asking>, NoMemory>
    requires width { IsPartWidth width }
    requires count { length addresses.now ≡ count_of (length file.now) (width - 16) }
    requires few { length addresses.now ≤ 4096 }
    ensures { IfOk result (λ askings. askings.items ≡ writes_of width id file.now addresses.now) }
{
    let mut askings = Vec::new(alloc);
    for (index, address) in addresses.iter().enumerate() {
        let part = part_of(alloc, file, id, width, index as u32)?;
        askings.push(Asking::Write(*address, part))?;
    }
    Ok(askings)
}

// To read so many own boxes.
fn reads_of(alloc: Global, count: u32) -> Result<Vec<Asking>, NoMemory>
    ensures { IfOk result (λ askings. askings.items ≡ map Read (range_with_len 0 count)) }
{
    let mut askings = Vec::new(alloc);
    for own in 0..count {
        askings.push(Asking::Read(own))?;
    }
    Ok(askings)
}

/// What the settings' job asks.
pub fn askings_of(alloc: Global, settings: &CarrySettings) -> Result<Vec<Asking>, NoMemory>
    requires settings { IsCarrier settings.now }
    ensures { IfOk result (λ askings.
        askings.items ≡ askings_of settings.now.width settings.now.owned settings.now.job) }
{
    match &settings.job {
        CarryJob::Send {
            id,
            file,
            addresses,
        } => writes_of(
            alloc,
            settings.width,
            file.as_slice(),
            *id,
            addresses.as_slice(),
        ),
        CarryJob::Fetch => reads_of(alloc, settings.owned.as_slice().len() as u32),
    }
}
