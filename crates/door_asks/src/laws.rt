//! What holds of each ask and each answer. Each function is empty: its contract is the law.
ghost use Rattle.door_asks.specs.Laws.{AsksAreReadBack, AsksEndAlone, AnswersAreReadBack};

/// An ask whose body the door takes is read back as it was written.
pub fn asks_are_read_back()
    ensures { AsksAreReadBack }
{}

/// And it ends where it ends, whatever follows it.
pub fn asks_end_alone()
    ensures { AsksEndAlone }
{}

/// An answer is read back as it was written.
pub fn answers_are_read_back()
    ensures { AnswersAreReadBack }
{}
