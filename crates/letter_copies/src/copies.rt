//! The copies of one letter.
ghost use Rattle.std.specs.Prelude.{◌≡◌, ◌≤◌, ◌<◌, ◌*◌, IfOk, length, slice_get, count_by, position};
ghost use Rattle.std.specs.List.{list_any, list_all};
ghost use Rattle.letter_copies.specs.Copies.{after_proof, all_written, begun, end_of, is_proof_out, is_unknown};
ghost use Rattle.letter_copies.specs.Copies.{is_unwritten, is_waiting, is_written, may_be_written, over, started};
ghost use Rattle.letter_copies.specs.Copies.{turn_of, waiting, written_nothing};

use crate::heard::{Answer, Fate, fate_by};
use crate::standing::{MOST_FURTHER, Standing};
use express_words::NoMemory;
use std::alloc::Global;
use std::marker::Model;

/// What is to be done next.
#[derive(Clone, Copy, Debug, PartialEq, Eq)]
pub enum Next {
    /// The try's next step.
    GoOn,
    /// The same request once more.
    SameAgain,
    /// Nothing of this try.
    TryIsOver,
}

/// What became of the letter.
#[derive(Clone, Copy, Debug, PartialEq, Eq)]
pub enum LetterEnd {
    /// Each part is written in some box.
    Written,
    /// Some part is written nowhere, now or later.
    NotWritten,
    /// It may have been written.
    MaybeWritten,
}

/// The try that is under way: the number of its copy, and whether its last proof has gone out.
#[derive(Clone, Copy, Debug, PartialEq, Eq)]
pub struct Try {
    pub copy: u8,
    pub proof_out: bool,
}

/// How the copies of a letter stand: so many of each part, those of the first part first.
#[derive(Debug, Drop)]
pub struct Copies {
    parts: u8,
    each: u8,
    standings: Vec<Standing>,
    present: Option<Try>,
}

impl Model for Copies {
    ghost use Rattle.letter_copies.specs.Copies.{CopiesState, IsWhole};

    ghost Value = { CopiesState };

    ghost view = { λ c. record {
      parts = c.parts;
      each = c.each;
      standings = c.standings.items;
      present = c.present;
    } };

    ghost invariant = { λ c. IsWhole (record {
      parts = c.parts;
      each = c.each;
      standings = c.standings.items;
      present = c.present;
    }) };
}

// The first of these that waits.
fn first_waiting(standings: &[Standing]) -> Option<usize>
    ensures { result ≡ position is_waiting standings.now }
{
    standings.iter().position(|s| s.is_waiting())
}

fn has_written(part: &[Standing]) -> bool
    ensures { result ≡ list_any is_written part.now }
{
    part.iter().any(|s| s.is_written())
}

impl Copies {
    /// So many parts with so many copies of each, of which none was tried.
    pub fn start(alloc: Global, parts: u8, each: u8) -> Result<Copies, NoMemory>
        requires some { 1 ≤ each }
        requires few { parts * each ≤ 255 }
        ensures { IfOk result (λ c. c ≡ started parts each) }
    {
        let count = usize::from(parts) * usize::from(each);
        let waits = Standing::Waits {
            further: MOST_FURTHER,
        };
        match vec![in alloc; waits; count] {
            Ok(standings) => Ok(Copies {
                parts,
                each,
                standings,
                present: None,
            }),
            Err(_) => Err(NoMemory),
        }
    }

    /// The first copy that waits, if one does.
    pub fn waiting(&self) -> Option<u8>
        ensures { result ≡ waiting self.now }
    {
        match first_waiting(&self.standings) {
            Some(place) => Some(place as u8),
            None => None,
        }
    }

    /// The try that is under way.
    pub fn present(&self) -> Option<Try>
        ensures { result ≡ self.now.present }
    {
        self.present
    }

    /// Where no try is under way, one of the first copy that waits begins.
    pub fn begin(&mut self)
        ensures { self.new ≡ begun self.old }
    {
        if self.present.is_some() {
            return;
        }
        if let Some(copy) = self.waiting() {
            self.present = Some(Try {
                copy,
                proof_out: false,
            });
        }
    }

    /// The last proof of the try goes out: said before its first byte is sent.
    pub fn proof_goes(&mut self)
        ensures { self.new ≡ after_proof self.old }
    {
        if let Some(tried) = self.present {
            self.present = Some(Try {
                proof_out: true,
                ..tried
            });
        }
    }

    /// What is to be done after an answer to the try that is under way.
    #[tactic(auto, unfolding(crate::specs::Copies::turn_by))]
    pub fn hear(&mut self, answer: Answer) -> Next
        ensures next { result ≡ (turn_of self.old answer).next }
        ensures state { self.new ≡ (turn_of self.old answer).state }
    {
        let Some(tried) = self.present else {
            return Next::TryIsOver;
        };
        match fate_by(tried.proof_out, answer) {
            Fate::GoesOn => Next::GoOn,
            Fate::Again => Next::SameAgain,
            Fate::Written => self.ends(tried.copy, Standing::Written),
            Fate::Unknown => self.ends(tried.copy, Standing::Unknown),
            Fate::NotWritten => self.wrote_nothing(tried.copy),
        }
    }

    // The try is over, and its copy stands so.
    fn ends(&mut self, copy: u8, standing: Standing) -> Next
        requires { copy < length self.old.standings }
        ensures next { result ≡ (over self.old copy standing).next }
        ensures state { self.new ≡ (over self.old copy standing).state }
    {
        self.present = None;
        self.standings[usize::from(copy)] = standing;
        Next::TryIsOver
    }

    // The try is over, and wrote nothing.
    fn wrote_nothing(&mut self, copy: u8) -> Next
        requires { copy < length self.old.standings }
        ensures next { result ≡ (written_nothing self.old copy (slice_get self.old.standings copy)).next }
        ensures state { self.new ≡ (written_nothing self.old copy (slice_get self.old.standings copy)).state }
    {
        let standing = self.standings[usize::from(copy)];
        self.ends(copy, standing.tried_again())
    }

    /// How many copies are written.
    pub fn written(&self) -> usize
        ensures { result ≡ count_by is_written self.now.standings }
    {
        self.standings.iter().filter(|s| s.is_written()).count()
    }

    // Whether each part has a copy that is written.
    #[tactic(auto, unfolding(crate::specs::Copies::all_written))]
    fn is_all_written(&self) -> bool
        ensures { result ≡ all_written self.now.parts self.now.each self.now.standings }
    {
        let each = usize::from(self.each);
        let mut rest = self.standings.as_slice();
        'parts: for _ in 0..self.parts {
            let (part, behind) = rest.split_at(each);
            if !has_written(part) {
                return false;
            }
            rest = behind;
        }
        true
    }

    /// What became of the letter; None while a copy waits.
    #[tactic(auto, unfolding(crate::specs::Copies::end_of))]
    pub fn end(&self) -> Option<LetterEnd>
        ensures { result ≡ end_of self.now }
    {
        if self.has_waiting() {
            return None;
        }
        if self.is_all_written() {
            return Some(LetterEnd::Written);
        }
        if self.has_unknown() {
            return Some(LetterEnd::MaybeWritten);
        }
        Some(LetterEnd::NotWritten)
    }

    /// Whether a try so far can have written some copy. Where none can, and the sending is given up, nothing of the letter is
    /// written anywhere, now or later.
    pub fn may_be_written(&self) -> bool
        ensures { result ≡ may_be_written self.now }
    {
        !self.is_all_unwritten() || self.is_proof_out()
    }

    fn has_waiting(&self) -> bool
        ensures { result ≡ list_any is_waiting self.now.standings }
    {
        self.standings.iter().any(|s| s.is_waiting())
    }

    fn has_unknown(&self) -> bool
        ensures { result ≡ list_any is_unknown self.now.standings }
    {
        self.standings.iter().any(|s| s.is_unknown())
    }

    fn is_all_unwritten(&self) -> bool
        ensures { result ≡ list_all is_unwritten self.now.standings }
    {
        self.standings.iter().all(|s| s.is_unwritten())
    }

    fn is_proof_out(&self) -> bool
        ensures { result ≡ is_proof_out self.now.present }
    {
        match self.present {
            Some(tried) => tried.proof_out,
            None => false,
        }
    }
}
