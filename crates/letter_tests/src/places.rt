//! Places, which `bench/letter_vectors` drew.
ghost use Rattle.std.specs.Prelude.{◌≤◌};

use crate::told::is_told;
use letter_pieces::{LetterId, Places, most_parts};
use std::alloc::{AllocError, Global};
use std::test::Fail;

const PLACES: &str = "[0]\n\
    [4, 2, 3, 1, 0]\n\
    [11, 2, 3, 13, 0, 15, 6, 4, 9, 7, 10, 5, 14, 12, 1, 8]\n\
    [47, 60, 16, 48, 24, 28, 17, 62, 39, 26, 10, 5, 41, 56, 55, 34, 36, 6, 42, 2, 9, 35, 15, 1, 29, \
    32, 21, 53, 45, 0, 19, 13, 23, 63, 57, 40, 3, 12, 8, 49, 61, 52, 31, 50, 30, 22, 59, 43, 54, 20, \
    11, 27, 14, 58, 46, 25, 37, 51, 38, 18, 44, 7, 4, 33]\n\
    [21, 63, 59, 26, 57, 1, 61, 9, 22, 49, 58, 3, 29, 36, 35, 51, 37, 55, 18, 40, 47, 42, 28, 0, 31, \
    27, 30, 53, 54, 25, 52, 14, 17, 2, 48, 16, 60, 5, 33, 24, 19, 7, 10, 62, 6, 11, 44, 56, 45, 43, \
    13, 23, 38, 4, 46, 12, 39, 8, 15, 20, 50, 41, 34, 32]\n";

// The places of a letter's parts on a card of so many addresses, and of one part more, in one list.
fn places_told(id: u64, addresses: usize, told: &mut String) -> Result<(), AllocError>
    requires { addresses ≤ 64 }
{
    let places = Places::draw(LetterId(id), addresses);
    let mut separator = "[";
    for part in 0..=most_parts(addresses) as u8 {
        for place in places.of_part(part) {
            write!(told, "{separator}{place}")?;
            separator = ", ";
        }
    }
    told.push_str("]\n")
}

fn orders_told(alloc: Global) -> Result<String, Fail> {
    let mut told = String::new(alloc);
    let id = 0x0102_0304_0506_0708;
    places_told(id, 1, &mut told)?;
    places_told(id, 5, &mut told)?;
    places_told(id, 16, &mut told)?;
    places_told(id, 64, &mut told)?;
    places_told(u64::MAX, 64, &mut told)?;
    Ok(told)
}

#[test]
fn orders(rt: HostRuntime) -> Result<(), Fail> {
    is_told(orders_told(rt.alloc()), PLACES)
}
