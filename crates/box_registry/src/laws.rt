//! What stands in a registry after every list of calls.
ghost use Rattle.box_registry.specs.Adds.{FirstsStand};

/// After any list of registrations the boxes are the first ones of each address, in order, up to the limit.
pub fn firsts_stand()
    ensures { FirstsStand }
{}
