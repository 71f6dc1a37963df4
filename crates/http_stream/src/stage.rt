//! How a connection over a stream stands.
ghost use Rattle.std.specs.Prelude.{◌≡◌};
ghost use Rattle.http_stream.specs.Stages.{closes_after, answered_stage, drained_stage, is_drained, is_closing, unlooked, asked_left};

use http_core::End;

/// How a connection over a stream stands. Those octets of a request that is being read, and a
/// request that is whole, are kept beside it.
#[derive(Clone, Copy, Debug, PartialEq, Eq)]
pub enum Stage {
    /// So many octets stand behind the last request, and weren't looked at.
    Open(usize),
    /// The next request isn't whole.
    Reading,
    /// The next request is whole and not answered, and so many octets stand behind it.
    Asked(usize),
    /// Whatever follows, the requests end so.
    Settled(End),
    /// The stream ended, and the requests ended so.
    Ended(End),
    /// A drain came, and no further request is answered; whether the last answer says so.
    Drained(bool),
    /// Memory ran out amid a request.
    Broken,
}

// How many octets weren't looked at behind the last request, where a look is wanted.
pub(crate) fn unlooked(abandoned: bool, stage: Stage) -> Option<usize>
    ensures { result ≡ unlooked abandoned stage }
{
    if abandoned {
        return None;
    }
    match stage {
        Stage::Open(left) => Some(left),
        Stage::Reading => None,
        Stage::Asked(_) => None,
        Stage::Settled(_) => None,
        Stage::Ended(_) => None,
        Stage::Drained(_) => None,
        Stage::Broken => None,
    }
}

// How many octets stand behind the request that is whole, where one is.
pub(crate) fn asked_left(stage: Stage) -> Option<usize>
    ensures { result ≡ asked_left stage }
{
    match stage {
        Stage::Open(_) => None,
        Stage::Reading => None,
        Stage::Asked(left) => Some(left),
        Stage::Settled(_) => None,
        Stage::Ended(_) => None,
        Stage::Drained(_) => None,
        Stage::Broken => None,
    }
}

// Whether the connection closes after an answer: by its request, or by a drain.
pub(crate) fn closes_after(goes_on: bool, drained: bool) -> bool
    ensures { result ≡ closes_after goes_on drained }
{
    if goes_on { drained } else { true }
}

// How the connection stands after an answer.
pub(crate) fn answered_stage(goes_on: bool, drained: bool, left: usize) -> Stage
    ensures { result ≡ answered_stage goes_on drained left }
{
    if !goes_on {
        return Stage::Settled(End::Closed);
    }
    if drained {
        return Stage::Drained(true);
    }
    Stage::Open(left)
}

// How the connection stands where a drain may have begun: a request that isn't whole is dropped.
pub(crate) fn drained_stage(drained: bool, stage: Stage) -> Stage
    ensures { result ≡ drained_stage drained stage }
{
    if !drained {
        return stage;
    }
    match stage {
        Stage::Open(_) => Stage::Drained(false),
        Stage::Reading => Stage::Drained(false),
        Stage::Asked(left) => Stage::Asked(left),
        Stage::Settled(end) => Stage::Settled(end),
        Stage::Ended(end) => Stage::Ended(end),
        Stage::Drained(closes) => Stage::Drained(closes),
        Stage::Broken => Stage::Broken,
    }
}

// Whether a drain ended the requests.
pub(crate) fn is_drained(stage: Stage) -> bool
    ensures { result ≡ is_drained stage }
{
    match stage {
        Stage::Open(_) => false,
        Stage::Reading => false,
        Stage::Asked(_) => false,
        Stage::Settled(_) => false,
        Stage::Ended(_) => false,
        Stage::Drained(_) => true,
        Stage::Broken => false,
    }
}

// Whether the last answer says that the connection closes because of a drain.
pub(crate) fn is_closing(stage: Stage) -> bool
    ensures { result ≡ is_closing stage }
{
    match stage {
        Stage::Open(_) => false,
        Stage::Reading => false,
        Stage::Asked(_) => false,
        Stage::Settled(_) => false,
        Stage::Ended(_) => false,
        Stage::Drained(closes) => closes,
        Stage::Broken => false,
    }
}
