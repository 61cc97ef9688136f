//! What holds of each request. Each function is empty: its contract is the law.
ghost use Rattle.http_door.specs.Laws.{RequestsComeAsSent, FollowersChangeNothing};
ghost use Rattle.http_door.specs.Laws.{AnswersAreReadBack, CutAnswersAreAwaited};

/// What `write_request` wrote is held as one request, whatever follows it, and `read` hears the request
/// that was sent, with its connection kept.
pub fn requests_come_as_they_were_sent()
    ensures { RequestsComeAsSent }
{}

/// Bytes that follow a request change neither its head nor its body: so `whole` and `read` answer the same.
pub fn followers_change_nothing()
    ensures { FollowersChangeNothing }
{}

/// Whatever `read_reply` tells of an answer that `write` wrote for its request, and of what follows it, is
/// that answer. Of less than all of its bytes it asks for more.
pub fn answers_are_read_back()
    ensures back { AnswersAreReadBack }
    ensures cut { CutAnswersAreAwaited }
{}
