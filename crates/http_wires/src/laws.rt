//! What holds of each connection of the clients' door. Each function is empty: its contract is the law.
ghost use Rattle.http_wires.specs.Clients.{EachAskHasRoom};
ghost use Rattle.http_wires.specs.Runs.{RequestsAreAskedInOrder};

/// The asks that were given of a connection are those of the requests that came of it, one behind another.
pub fn requests_are_asked_in_order()
    ensures { RequestsAreAskedInOrder }
{}

/// Whatever is heard, there is room for its ask: so no connection ends because one is too long.
pub fn each_ask_has_room()
    ensures { EachAskHasRoom }
{}
