//! What records tell.
ghost use Rattle.std.specs.Prelude.{◌≡◌, List, ℕ};
ghost use Rattle.node_restart.specs.declared.opening.Opening.{Opening};
ghost use Rattle.node_restart.specs.Openings.{IsOpening};
ghost use Rattle.node_restart.specs.Frames.{Handed, AllFrames, records_of, IsForeign};

/// Records tell the opening and the frames whose records they are, and no record of these is foreign. The
/// function is empty: its contract is the law.
pub fn records_tell()
    ensures opening { (a b : Opening) (frames others : List Handed) → IsOpening a → IsOpening b
        → records_of a frames ≡ records_of b others → a ≡ b }
    ensures frames { (a b : Opening) (frames others : List Handed) → records_of a frames ≡ records_of b others
        → frames ≡ others }
    ensures foreign { (n : ℕ) (o : Opening) (frames : List Handed) → IsOpening o → AllFrames frames
        → IsForeign n (records_of o frames) → ⊥ }
{}
