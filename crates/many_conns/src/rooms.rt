//! All places: as they are opened, after a wait, and who has been waited for the longest.
ghost use Rattle.std.specs.Prelude.{◌≡◌, ◌+◌, ◌<◌, ◌≤◌, ◌++◌, ℕ, length, take, map, Some, OnOk, IfOk, IfSome, replicate};
ghost use Rattle.many_conns.specs.Doors.{free_places};
ghost use Rattle.many_conns.specs.Places.{waited, empty_place};
ghost use Rattle.many_conns.specs.Hall.{IsSomeAt, IsOldestOf, IsOldestAt};

use crate::doors::Doors;
use crate::place::Place;
use many_words::Door;
use std::alloc::{AllocError, Global};

// The server has waited.
pub fn wait_all(places: &mut Vec<Place>)
    ensures { places.new.items ≡ map waited places.old.items }
{
    for place in 0..places.len() {
        places[place].wait();
    }
}

// So many places of a door more, all free.
fn add_free(
    alloc: Global,
    places: &mut Vec<Place>,
    door: Door,
    count: usize,
) -> Result<(), AllocError>
    ensures { OnOk result (places.new.items ≡ places.old.items ++ replicate count (empty_place door)) }
{
    for _ in 0..count {
        places.push(Place::empty(alloc, door)?)?;
    }
    Ok(())
}

// The place of the other server, those of operators and those of clients, all free.
pub fn free_places(alloc: Global, doors: Doors) -> Result<Vec<Place>, AllocError>
    ensures { IfOk result (λ places. places.items ≡ free_places doors) }
{
    let mut places = Vec::new(alloc);
    add_free(alloc, &mut places, doors.role.door(), 1)?;
    add_free(alloc, &mut places, Door::Status, doors.status)?;
    add_free(alloc, &mut places, Door::Clients, doors.clients)?;
    Ok(places)
}

// The place of a door that has been waited for the longest up to this one, where so far it is the best of them.
fn older(places: &[Place], door: Door, best: Option<usize>, place: usize) -> usize
    requires place { place < length places.now }
    requires door { IsSomeAt places.now place (λ p. p.door ≡ door) }
    requires so_far { IsOldestOf door (take place places.now) places.now best }
    ensures { IsOldestOf door (take (place + 1) places.now) places.now (Some result) }
{
    match best {
        Some(best) => {
            if places[best].since() <= places[place].since() {
                best
            } else {
                place
            }
        }
        None => place,
    }
}

// The place whose connection has been waited for the longest of those of a door, where each of them has one.
pub fn oldest(places: &[Place], door: Door) -> Option<usize>
    ensures { IfSome result (IsOldestAt door places.now) }
{
    let mut best = None;
    for place in 0..places.len() {
        if places[place].door() == door {
            if !places[place].is_live() {
                return None;
            }
            best = Some(older(places, door, best, place));
        }
    }
    best
}
