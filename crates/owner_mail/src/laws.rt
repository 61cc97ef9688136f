//! The law of letters that were told. The function does nothing: its contract is the law.
ghost use Rattle.owner_mail.specs.Laws.{ToldLettersArentDue};

/// Behind news that were told no letter among them is due any more: each is told once.
pub fn letters_are_told_once()
    ensures { ToldLettersArentDue }
{}
