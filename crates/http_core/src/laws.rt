//! What holds of the definitions alone.
ghost use Rattle.std.specs.Prelude.{◌≡◌, List, ℕ, ◌++◌};
ghost use Rattle.http_core.specs.declared.message.Request.{Request};
ghost use Rattle.http_core.specs.declared.message.Answer.{Answer};
ghost use Rattle.http_core.specs.declared.message.End.{End};
ghost use Rattle.http_core.specs.Requests.{Requests};
ghost use Rattle.http_core.specs.Replies.{IsReplies};

/// All octets of a connection have at most one list of requests and one end.
pub fn one_reading()
    ensures { (bytes : List ℕ) (requests others : List Request) (end other : End)
        → Requests requests end bytes → Requests others other bytes → (requests ≡ others)
        × (end ≡ other) }
{}

/// All octets of a connection have a list of requests and an end.
pub fn some_reading()
    ensures { (bytes : List ℕ) → (requests : List Request) × (end : End)
        × Requests requests end bytes }
{}

/// A service has at most one list of replies to them.
pub fn one_output()
    ensures { (f : Request → Answer) (bytes output other : List ℕ) → IsReplies f bytes output
        → IsReplies f bytes other → output ≡ other }
{}

/// A service has a list of replies to all octets.
pub fn some_output()
    ensures { (f : Request → Answer) (bytes : List ℕ) → (output : List ℕ)
        × IsReplies f bytes output }
{}
