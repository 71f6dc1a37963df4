//! The trees that a form has.
ghost use Rattle.std.specs.Prelude.{◌≡◌, ◌<◌, ◌≤◌, ◌+◌, ℕ, [], ◌∷◌, Bool, true, false, List, Option, option_to_list};
ghost use Rattle.kj_model.specs.Nodes.{is_in, content_parts, stage_parts};
ghost use Rattle.promise_nodes.specs.Shown.{run_from, content_shown, stage_shown, link_number};
ghost use Rattle.promise_graph.specs.Kept.{form_parts};

use crate::making::nobody;
use kj_base::{Content, Form, Link, Stage};

/// So many nodes, whose numbers follow each other.
#[derive(Clone, Copy)]
pub struct Span {
    pub first: Link,
    pub count: u8,
}

fn no_parts() -> Span
    ensures { [] ≡ run_from result.count result.first.number.0 }
{
    Span {
        first: nobody(),
        count: 0,
    }
}

fn one_part(link: Link) -> Span
    ensures { link.number.0 ∷ [] ≡ run_from result.count result.first.number.0 }
{
    Span {
        first: link,
        count: 1,
    }
}

fn tree_parts(tree: &Option<Link>) -> Span
    ensures { option_to_list (link_number tree.now) ≡ run_from result.count result.first.number.0 }
{
    match tree {
        Some(link) => one_part(*link),
        None => no_parts(),
    }
}

fn content_parts(content: &Content) -> Span
    ensures { content_parts (content_shown content.now)
        ≡ run_from result.count result.first.number.0 }
{
    match content {
        Content::Tree(link) => one_part(*link),
        Content::Kept(_) => no_parts(),
    }
}

fn stage_parts(stage: &Stage) -> Span
    ensures { stage_parts (stage_shown stage.now) ≡ run_from result.count result.first.number.0 }
{
    match stage {
        Stage::Waits(link) => one_part(*link),
        Stage::Fired(link) => one_part(*link),
        Stage::Keeps(_) => no_parts(),
        Stage::Gone => no_parts(),
    }
}

// The trees of a form in the order in which they are freed.
pub(crate) fn parts(form: &Form) -> Span
    ensures { form_parts form.now ≡ run_from result.count result.first.number.0 }
{
    match form {
        Form::Ready { .. } => no_parts(),
        Form::Later => no_parts(),
        Form::Last => no_parts(),
        Form::Cell { .. } => no_parts(),
        Form::Branch { .. } => no_parts(),
        Form::Then { tree, .. } => tree_parts(tree),
        Form::Chain { link } => one_part(*link),
        Form::Eager { content } => content_parts(content),
        Form::Wrap { content, .. } => content_parts(content),
        Form::Hub { content, .. } => content_parts(content),
        Form::Side { stage } => stage_parts(stage),
        Form::Race { left, .. } => Span {
            first: *left,
            count: 2,
        },
        Form::Join { first, count, .. } => Span {
            first: *first,
            count: *count,
        },
        Form::Task { tree } => tree_parts(tree),
        Form::Request { tree, .. } => tree_parts(tree),
    }
}

// Whether a number is one of so many that follow each other.
fn run_has(first: u64, count: u8, n: u64) -> bool
    ensures { result ≡ is_in n (run_from count first) }
{
    let mut at = first;
    let mut left = count;
    'looking: while left > 0 {
        if at == n {
            return true;
        }
        at = at.saturating_add(1);
        left -= 1;
    }
    false
}

// Whether a form has this tree.
pub(crate) fn has_part(form: &Form, n: u64) -> bool
    ensures { result ≡ is_in n (form_parts form.now) }
{
    let parts = parts(form);
    run_has(parts.first.number.0, parts.count, n)
}
