//! What a link's two ends hold after every list of calls.
ghost use Rattle.link_order.specs.Calls.{IssuesInOrder, KeepsTheLast};

/// After any commands were carried out, the replies to the last ones are kept, as many as the window.
pub fn last_replies_are_kept()
    ensures { KeepsTheLast }
{}

/// After any list of `issue` and `acknowledge` the commands were acknowledged in the order in which they were
/// issued, by their numbers from 1 on, and those that weren't are outstanding.
pub fn commands_go_in_order()
    ensures { IssuesInOrder }
{}
