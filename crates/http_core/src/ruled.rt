//! Heads and requests with what their fields say, found once by one pass.
use crate::Request;
use http_heads::rules::rules_of;
use http_heads::{Framing, Head, MessageRules};
use kj_base::Bytes;
use std::marker::Model;

/// A head with its rules. Contracts see the head.
#[derive(Debug, Drop)]
pub struct RuledHead {
    head: Head,
    rules: MessageRules,
}

impl Model for RuledHead {
    ghost use Rattle.std.specs.Prelude.{◌≡◌};
    ghost use Rattle.http_heads.specs.declared.field.Head.{Head};
    ghost use Rattle.http_heads.specs.Framing.{framing_of, persists};

    ghost Value = { Head };

    ghost view = { λ r. r.head };

    ghost invariant = { λ r. (r.rules.framing ≡ framing_of r.head)
        × (r.rules.persists ≡ persists r.head) };
}

impl RuledHead {
    ghost use Rattle.std.specs.Prelude.{◌≡◌};
    ghost use Rattle.http_heads.specs.Framing.{framing_of};

    /// Goes over the fields. Takes no memory.
    pub fn new(head: Head) -> RuledHead
        ensures { result ≡ head }
    {
        let rules = rules_of(&head);
        RuledHead { head, rules }
    }

    /// How the body behind it is delimited.
    pub fn framing(&self) -> Framing
        ensures { result ≡ framing_of self.now }
    {
        self.rules.framing
    }

    /// The request with this body. Takes no memory.
    pub fn with_body(self, body: Bytes) -> RuledRequest
        ensures { result ≡ record { head = self; body = body } }
    {
        let RuledHead { head, rules } = self;
        RuledRequest {
            request: Request { head, body },
            goes_on: rules.persists,
        }
    }
}

/// A request with whether the connection goes on after it. Contracts see the request.
#[derive(Debug, Drop)]
pub struct RuledRequest {
    request: Request,
    goes_on: bool,
}

impl Model for RuledRequest {
    ghost use Rattle.std.specs.Prelude.{◌≡◌};
    ghost use Rattle.http_heads.specs.Framing.{persists};
    ghost use Rattle.http_core.specs.declared.message.Request.{Request};

    ghost Value = { Request };

    ghost view = { λ r. r.request };

    ghost invariant = { λ r. r.goes_on ≡ persists r.request.head };
}

impl RuledRequest {
    ghost use Rattle.std.specs.Prelude.{◌≡◌};
    ghost use Rattle.http_heads.specs.Framing.{persists};

    pub fn request(&self) -> &Request
        ensures { result.now ≡ self.now }
    {
        &self.request
    }

    /// Whether the connection goes on after it.
    pub fn persists(&self) -> bool
        ensures { result ≡ persists self.now.head }
    {
        self.goes_on
    }

    /// Takes no memory.
    pub fn into_request(self) -> Request
        ensures { result ≡ self }
    {
        self.request
    }
}
