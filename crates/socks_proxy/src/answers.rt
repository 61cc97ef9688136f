//! What a proxy answers, read as SOCKS 5 has it.
ghost use Rattle.std.specs.Prelude.{◌≡◌, ◌≢◌, ◌++◌, ◌<◌, List as Listed, ℕ, length, Ok, Err, IfOk, IfErr, OnOk};
ghost use Rattle.socks_proxy.specs.Forms.{choice, status, IsReply};
ghost use Rattle.socks_proxy.specs.Talks.{IsChoiceCause, IsStatusCause, IsReplyCause};

use crate::fault::ProxyFault;

/// Whether the proxy wants a user name.
pub fn judge_choice(answer: &[u8; 2]) -> Result<(), ProxyFault>
    ensures yes { OnOk result (answer.now ≡ choice 2) }
    ensures cause { IfErr result (λ why. IsChoiceCause why answer.now) }
{
    match *answer {
        [5, 2] => Ok(()),
        [5, _] => Err(ProxyFault::NoNames),
        _ => Err(ProxyFault::NotSocks),
    }
}

/// Whether the proxy takes the user name.
pub fn judge_status(answer: &[u8; 2]) -> Result<(), ProxyFault>
    ensures yes { OnOk result (answer.now ≡ status 0) }
    ensures cause { IfErr result (λ why. IsStatusCause why answer.now) }
{
    match *answer {
        [1, 0] => Ok(()),
        [1, _] => Err(ProxyFault::NeedsPassword),
        _ => Err(ProxyFault::NotSocks),
    }
}

/// How many bytes follow the first five of a reply, where it says yes.
pub fn judge_reply(front: &[u8; 5]) -> Result<usize, ProxyFault>
    ensures yes { IfOk result (λ n. (rest : Listed ℕ) → length rest ≡ n → IsReply 0 (front.now ++ rest)) }
    ensures only { (rest : Listed ℕ) → IsReply 0 (front.now ++ rest) → result ≡ Ok (length rest) }
    ensures short { IfOk result (λ n. n < 258) }
    ensures cause { IfErr result (λ why. IsReplyCause why front.now) }
{
    let [version, code, reserved, kind, first] = *front;
    if version != 5 || reserved != 0 {
        return Err(ProxyFault::NotSocks);
    }
    if code != 0 {
        return Err(ProxyFault::Refused(code));
    }
    match kind {
        1 => Ok(5),
        3 => Ok(first as usize + 2),
        4 => Ok(17),
        _ => Err(ProxyFault::NotSocks),
    }
}
