//! A command from its words.
ghost use Rattle.std.specs.Prelude.{◌≡◌, map};
ghost use Rattle.promise_script.specs.Decode.{made_by, combined_by, used_by};

use crate::parts::{
    read_broken, read_continued, read_grouped, read_joined, read_one_name, read_raced,
    read_two_names, read_valued,
};
use crate::verbs::{Combiner, Maker, User};
use promise_commands::Command;

/// A command that makes a promise of no other.
pub fn read_made(maker: Maker, parts: &[&[u8]]) -> Option<Command>
    ensures { result ≡ made_by maker (map (λ w. w.now) parts.now) }
{
    match maker {
        Maker::Now => {
            let (name, value) = read_valued(parts)?;
            Some(Command::Now { name, value })
        }
        Maker::Fail => {
            let (name, exception) = read_broken(parts)?;
            Some(Command::Broken { name, exception })
        }
        Maker::Later => {
            let name = read_one_name(parts)?;
            Some(Command::Later { name })
        }
        Maker::Last => {
            let name = read_one_name(parts)?;
            Some(Command::Last { name })
        }
        Maker::Pair => {
            let (name, cell) = read_two_names(parts)?;
            Some(Command::Pair { name, cell })
        }
        Maker::Empty => {
            let (name, group) = read_two_names(parts)?;
            Some(Command::OnEmpty { name, group })
        }
    }
}

/// A command that makes a promise of others.
pub fn read_combined(combiner: Combiner, parts: &[&[u8]]) -> Option<Command>
    ensures { result ≡ combined_by combiner (map (λ w. w.now) parts.now) }
{
    match combiner {
        Combiner::Then => read_then(parts),
        Combiner::Chain => read_chain(parts),
        Combiner::Eager => {
            let (name, source) = read_two_names(parts)?;
            Some(Command::Eager { name, source })
        }
        Combiner::Fork => {
            let (hub, source) = read_two_names(parts)?;
            Some(Command::Fork { hub, source })
        }
        Combiner::Branch => {
            let (name, hub) = read_two_names(parts)?;
            Some(Command::Branch { name, hub })
        }
        Combiner::Race => {
            let (name, (left, right)) = read_raced(parts)?;
            Some(Command::Race { name, left, right })
        }
        Combiner::All => {
            let (name, parts) = read_joined(parts)?;
            Some(Command::All { name, parts })
        }
        Combiner::Fast => {
            let (name, parts) = read_joined(parts)?;
            Some(Command::Fast { name, parts })
        }
    }
}

fn read_then(parts: &[&[u8]]) -> Option<Command>
    ensures { result ≡ combined_by Combiner.Then (map (λ w. w.now) parts.now) }
{
    let (name, (source, (value, error))) = read_continued(parts)?;
    Some(Command::Then {
        name,
        source,
        value,
        error,
    })
}

fn read_chain(parts: &[&[u8]]) -> Option<Command>
    ensures { result ≡ combined_by Combiner.Chain (map (λ w. w.now) parts.now) }
{
    let (name, (source, (value, error))) = read_continued(parts)?;
    Some(Command::Chain {
        name,
        source,
        value,
        error,
    })
}

/// A command that makes no promise.
pub fn read_used(user: User, parts: &[&[u8]]) -> Option<Command>
    ensures { result ≡ used_by user (map (λ w. w.now) parts.now) }
{
    match user {
        User::Fulfil => {
            let (cell, value) = read_valued(parts)?;
            Some(Command::Fulfil { cell, value })
        }
        User::Reject => {
            let (cell, exception) = read_broken(parts)?;
            Some(Command::Reject { cell, exception })
        }
        User::DropCell => {
            let cell = read_one_name(parts)?;
            Some(Command::DropCell { cell })
        }
        User::Detach => {
            let source = read_one_name(parts)?;
            Some(Command::Detach { source })
        }
        User::Set => {
            let (group, error) = read_grouped(parts)?;
            Some(Command::NewSet { group, error })
        }
        User::Add => {
            let (group, source) = read_two_names(parts)?;
            Some(Command::Add { group, source })
        }
        User::Clear => {
            let group = read_one_name(parts)?;
            Some(Command::Clear { group })
        }
        User::Canceler => {
            let canceler = read_one_name(parts)?;
            Some(Command::NewCanceler { canceler })
        }
        User::Cancel => {
            let canceler = read_one_name(parts)?;
            Some(Command::Cancel { canceler })
        }
        User::Drop => {
            let name = read_one_name(parts)?;
            Some(Command::Drop { name })
        }
    }
}
