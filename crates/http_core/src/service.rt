//! Services.
use crate::{Answer, Request};
use kj_base::{Bytes, NoMemory};
use std::alloc::Global;

/// Answers requests, one after another. A service tells what it answers, or tells nothing; this
/// belongs to its type.
pub trait Service {
    ghost use Rattle.std.specs.Prelude.{◌≡◌, ◌≤◌, Option, IfSome, IfOk};
    ghost use Rattle.http_core.specs.declared.message.Request.{Request};
    ghost use Rattle.http_core.specs.declared.message.Answer.{Answer};

    ghost told: { Option (Request → Answer) };

    fn answer(&mut self, alloc: Global, request: &Request) -> Result<Answer, NoMemory>
        ensures told { IfSome told (λ f. IfOk result (λ answer. answer ≡ f request.now)) }
        ensures status { IfOk result (λ answer. (200 ≤ answer.status) × (answer.status ≤ 599)) };
}

/// Answers 200 with the request's body.
#[derive(Debug, Drop)]
pub struct Echo;

impl Service for Echo {
    ghost use Rattle.std.specs.Prelude.{Some};
    ghost use Rattle.http_core.specs.Services.{echo_of};

    ghost told = { Some echo_of };

    fn answer(&mut self, alloc: Global, request: &Request) -> Result<Answer, NoMemory> {
        let body = Bytes::from_slice(alloc, request.body.as_slice())?;
        Ok(Answer {
            status: 200,
            body,
            chunked: false,
        })
    }
}

/// Answers with the request's method and target: 204 for `/empty`, 404 for `/none`, and in chunks
/// for `/chunk`.
#[derive(Debug, Drop)]
pub struct Target;

impl Service for Target {
    ghost use Rattle.std.specs.Prelude.{Some};
    ghost use Rattle.http_core.specs.Services.{target_of};

    ghost told = { Some target_of };

    fn answer(&mut self, alloc: Global, request: &Request) -> Result<Answer, NoMemory> {
        let target = request.head.target.as_slice();
        if target == b"/empty".as_slice() {
            let body = Bytes::new(alloc);
            return Ok(Answer {
                status: 204,
                body,
                chunked: false,
            });
        }
        if target == b"/none".as_slice() {
            let body = Bytes::from_slice(alloc, b"none")?;
            return Ok(Answer {
                status: 404,
                body,
                chunked: false,
            });
        }
        let method = request.head.method.as_slice();
        let room = method.len().saturating_add(target.len()).saturating_add(1);
        let mut body = Bytes::with_capacity(alloc, room)?;
        body.extend(method)?;
        body.push(b' ')?;
        body.extend(target)?;
        let chunked = target == b"/chunk".as_slice();
        Ok(Answer {
            status: 200,
            body,
            chunked,
        })
    }
}
