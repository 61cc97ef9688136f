//! The laws of pieces and their places. The functions are empty: their contracts are the laws.
ghost use Rattle.letter_pieces.specs.Laws.{EncodedHold, OnePiece, EncodedDiffer, EmptyHoldNone, PartsFit};
ghost use Rattle.letter_pieces.specs.Laws.{PartsHavePlaces, PiecesJoin, PlacesPermuted, PartsAreCopied};
ghost use Rattle.letter_pieces.specs.Laws.{PlacesDiffer, PlacesAreOnTheCard};

/// A piece's bytes hold it, no bytes hold two pieces, and an empty box holds none.
pub fn pieces_are_told_apart()
    ensures hold { EncodedHold }
    ensures one { OnePiece }
    ensures differ { EncodedDiffer }
    ensures empty { EmptyHoldNone }
{}

/// Each part of a letter fits into a box, the card has places for all of them, and joined in order they are
/// the letter.
pub fn letters_are_their_pieces()
    ensures fit { PartsFit }
    ensures placed { PartsHavePlaces }
    ensures join { PiecesJoin }
{}

/// The places of a letter are the card's addresses in some order. Each part has three of them, or all where
/// there are fewer, and a letter never meets itself.
pub fn letters_never_meet_themselves()
    ensures permuted { PlacesPermuted }
    ensures copied { PartsAreCopied }
    ensures differ { PlacesDiffer }
    ensures on_the_card { PlacesAreOnTheCard }
{}
