//! What holds of both servers behind their doors. Each function is empty: its contract is the law.
ghost use Rattle.many_servers.specs.Laws.{HelpersOpenTheSame, LateComersHear, LeadersOpenTheSame, LeasesComeBack, PacketsComeBack, TestsAreTheGates};

/// Behind each record that its log takes, a server is what one makes of it that is opened again from that log.
pub fn servers_open_the_same()
    ensures helper { HelpersOpenTheSame }
    ensures leader { LeadersOpenTheSame }
{}

/// The test by which a client's frame is taken is the gate's rule.
pub fn tests_are_the_gates()
    ensures { TestsAreTheGates }
{}

/// Once its lane is leased to another, whoever comes back with a frame of the lease before hears how its request
/// ended.
pub fn late_comers_hear()
    ensures { LateComersHear }
{}

/// Packets of the link end where they end, and carry what was put into them.
pub fn packets_come_back()
    ensures packets { PacketsComeBack }
    ensures leases { LeasesComeBack }
{}
