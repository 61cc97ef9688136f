//! Faults by their numbers.
ghost use Rattle.std.specs.Prelude.{◌≡◌, ◌∷◌, []};
ghost use Rattle.door_asks.specs.Faults.{fault_number, fault_in};

use http_door::DoorFault;

/// The fault's number, as a text of one byte.
pub(crate) fn fault_byte(fault: DoorFault) -> &'static [u8]
    ensures { result.now ≡ fault_number fault ∷ [] }
{
    match fault {
        DoorFault::Malformed => &[1],
        DoorFault::NoPath => &[2],
        DoorFault::Method => &[3],
        DoorFault::NoLength => &[4],
        DoorFault::LongBody => &[5],
        DoorFault::NotOctets => &[6],
        DoorFault::LongHead => &[7],
    }
}

/// The fault of this number.
pub(crate) fn fault_of(number: u8) -> Option<DoorFault>
    ensures { result ≡ fault_in number }
{
    match number {
        1 => Some(DoorFault::Malformed),
        2 => Some(DoorFault::NoPath),
        3 => Some(DoorFault::Method),
        4 => Some(DoorFault::NoLength),
        5 => Some(DoorFault::LongBody),
        6 => Some(DoorFault::NotOctets),
        7 => Some(DoorFault::LongHead),
        _ => None,
    }
}
