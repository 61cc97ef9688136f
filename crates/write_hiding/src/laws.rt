//! Laws over the definitions. Each function here is empty: its contract is the law.
ghost use Rattle.write_hiding.specs.Laws.{
  LevelStays,
  LevelReturns,
  PathStays,
  PublicPartStays,
  ChoicesStay,
  ViewsStay,
  MovesReturn,
  DistinctStay,
  WritesAreChoices,
  WritesAreSeen,
  KeysAreHonest,
  EndsAreLeaves,
  LeavesAreHonest,
};
ghost use Rattle.write_hiding.specs.MaliciousLaws.{
  MaliciousViewsStay,
  MaliciousDistinctStay,
  WeightsAreZeroAtOneAndTwo,
  HonestOpeningsGiveViews,
  MaliciousWritesAreSeen,
  AdversariesPlayTheSame,
  AdversariesSeeTheSame,
  AdversaryMovesReturn,
  DistinctStayForAdversaries,
};

/// The moved expansions make the same public part, level by level.
pub fn public_part_stays()
    ensures level_stays { LevelStays }
    ensures level_returns { LevelReturns }
    ensures path_stays { PathStays }
    ensures part_stays { PublicPartStays }
{}

/// For either viewer, any two registered targets and any two messages of one width, the viewer's view of the
/// second write under the moved choice is its view of the first, and the opposite move gives the choice back.
/// So as many distinct choices of the one write as of the other have a given view.
pub fn views_stay()
    ensures choices_stay { ChoicesStay }
    ensures views_stay { ViewsStay }
    ensures moves_return { MovesReturn }
    ensures distinct_stay { DistinctStay }
{}

/// A client's write is a choice in which the other server's expansions are honest, and the view of that
/// choice is what the viewer gets of the write. Its public part is the honest keys, and the other server's
/// leaves are those of its walk under them, at the target the end of its path.
pub fn writes_are_choices()
    ensures choice { WritesAreChoices }
    ensures seen { WritesAreSeen }
    ensures keys { KeysAreHonest }
    ensures end { EndsAreLeaves }
    ensures leaf { LeavesAreHonest }
{}

/// All this holds of a malicious viewer too: whatever it opens to the other server, at any point but 1 and 2,
/// its view of the second write under the moved choice is its view of the first. Those two are left out since
/// the other server's u and v count nothing there. A viewer that opens as its program does is one of these.
pub fn malicious_views_stay()
    ensures views_stay { MaliciousViewsStay }
    ensures distinct_stay { MaliciousDistinctStay }
    ensures weights { WeightsAreZeroAtOneAndTwo }
    ensures honest { HonestOpeningsGiveViews }
{}

/// The view of a client's write as a choice is what a viewer gets of it that opens whatever it likes: the
/// other server's values are those of `audit_rules`, with that one's own leaves.
pub fn malicious_writes_are_seen()
    ensures { MaliciousWritesAreSeen }
{}

/// An adversary that picks the key of the challenges, the point and what it opens by what it has seen up to
/// then plays the same game and sees the same, of equally many choices.
pub fn adversaries_see_the_same()
    ensures plays_stay { AdversariesPlayTheSame }
    ensures sights_stay { AdversariesSeeTheSame }
    ensures moves_return { AdversaryMovesReturn }
    ensures distinct_stay { DistinctStayForAdversaries }
{}
