//! What a server sends beside writes of any aims, whatever comes: the tables of `step_rules` in worlds in
//! which a server's leaves and masks may be anything.
//!
//! The functions here are empty: their contracts are laws.
#![tactic(auto)]

ghost use Rattle.step_hiding.specs.HelperLaws.{HelperSightsStay, HelpersAnswerClients, HelpersAnswerLeaders};
ghost use Rattle.step_hiding.specs.HelperWorlds.{HelpersAreReal};
ghost use Rattle.step_hiding.specs.LeaderLaws.{LeaderSightsStay, LeadersAnswerClients, LeadersAnswerHelpers};
ghost use Rattle.step_hiding.specs.LeaderWorlds.{LeadersAreReal};

/// In the program's world, whose leaves and masks are expanded from roots and keys, a server steps as the
/// tables say.
pub fn worlds_have_the_tables()
    ensures helper { HelpersAreReal }
    ensures leader { LeadersAreReal }
{}

/// The helper, against any leader and any clients. Take two worlds, and writes that are aimed differently in
/// both. Where their leaves elsewhere are the same, they have the same values in each audit that comes, and
/// masks take up what boxes differ in, all that the helper sends is the same.
pub fn helpers_tell_views()
    ensures clients { HelpersAnswerClients }
    ensures leaders { HelpersAnswerLeaders }
    ensures sights { HelperSightsStay }
{}

/// The leader likewise, against any helper and any clients.
pub fn leaders_tell_views()
    ensures clients { LeadersAnswerClients }
    ensures helpers { LeadersAnswerHelpers }
    ensures sights { LeaderSightsStay }
{}
