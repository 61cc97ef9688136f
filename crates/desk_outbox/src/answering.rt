//! What came of a frame, as a letter's sending hears it.
ghost use Rattle.std.specs.Prelude.{◌≡◌};
ghost use Rattle.desk_outbox.specs.Answers.{answer_to, answer_lost, named_by, stop_to};

use client_core::{Outcome, Progress};
use desk_tries::Answer;
use express_words::Refusal;
use node_client::Stop;
use node_exchange::Broken;

/// A frame of which the client says this.
pub fn answer_to(progress: &Progress) -> Answer
    ensures { result ≡ answer_to progress.now }
{
    match *progress {
        Progress::Next => Answer::Fits,
        Progress::Finished(Outcome::Accepted) => Answer::Accepted,
        Progress::Finished(Outcome::Refused(refusal)) => Answer::Refused(refusal),
        Progress::Later(refusal) => Answer::Refused(refusal),
        Progress::Finished(_) | Progress::Ignored => Answer::Other,
    }
}

/// No frame.
pub fn answer_lost(why: &Broken) -> Answer
    ensures { result ≡ answer_lost why.now }
{
    match why {
        Broken::Fault(_) | Broken::Early(_) => Answer::Lost,
        Broken::Wrong(_) => Answer::Other,
    }
}

/// What halts the work at such a frame, where the same one is to be sent again.
pub fn stop_to(progress: &Progress) -> Stop
    ensures { result ≡ stop_to progress.now }
{
    match *progress {
        Progress::Later(refusal) => Stop::Later(refusal),
        Progress::Next | Progress::Finished(_) | Progress::Ignored => Stop::Answer,
    }
}

/// The serial that an answer names.
pub fn named_by(answer: Answer) -> Option<u32>
    ensures { result ≡ named_by answer }
{
    match answer {
        Answer::Refused(Refusal::Stale(serial)) => Some(serial),
        _ => None,
    }
}
