//! The connections of a server by their places.
ghost use Rattle.std.specs.Prelude.{IsTrue, ◌≡◌, ◌<◌, IfOk, OnErr, None, length, replicate};
ghost use Rattle.http_steps.specs.Table.{tellings, held_at, StepsSo, ServiceStays, StepsAt, LacksAt, LeavesSo, IsFree};
ghost use Rattle.http_steps.specs.Table.{IsOverAt, TakesAt, TakesServed, waits_in};
ghost use Rattle.http_stream.specs.Moves.{wants_of};
ghost use Rattle.promise_commands.specs.Commands.{action_of};
ghost use Rattle.http_steps.specs.declared.names.TheConstants.{MAX_CONNECTIONS};

use crate::actions::{connection_action, plain_action};
use crate::names::MAX_CONNECTIONS;
use crate::server_step::ServerStep;
use http_core::Service;
use http_stream::{ConnectionStep, Next, Served, ServedConnection};
use kj_base::NoMemory;
use kj_io::Stream;
use promise_commands::Action;
use std::alloc::Global;

// So many places, and no connection.
pub(crate) fn empty_table<V: Service + Drop, C: Stream + Drop>(
    alloc: Global,
    count: u32,
) -> Result<Vec<Option<ServedConnection<V, C>>>, NoMemory>
    ensures { IfOk result (λ table. table.items ≡ replicate count None) }
{
    let mut table = Vec::with_capacity(alloc, count as usize)?;
    for _ in 0..count {
        table.push(None)?;
    }
    Ok(table)
}

// One step of a connection.
fn step_connection<V: Service + Drop, C: Stream + Drop>(
    connection: &mut ServedConnection<V, C>,
    step: ConnectionStep,
    service: &mut V,
    drained: bool,
) -> Result<Next, NoMemory>
    ensures steps { IfOk result (λ next. StepsSo (tellings V.told C.told C.faults C.pauses) step
        drained connection.old connection.new next) }
    ensures leaves { OnErr result (LeavesSo step connection.old connection.new) }
    ensures service { ServiceStays step (wants_of connection.old.connection) service.old
        service.new }
{
    match step {
        ConnectionStep::Read => connection.read(drained),
        ConnectionStep::Answer => connection.answer(service, drained),
        ConnectionStep::Write => connection.write(drained),
    }
}

// A step of the connection at a place, where one stands there, and its action.
pub(crate) fn step_at<V: Service + Drop, C: Stream + Drop>(
    table: &mut Vec<Option<ServedConnection<V, C>>>,
    place: usize,
    step: ConnectionStep,
    service: &mut V,
    drained: bool,
) -> Result<Action, NoMemory>
    requires there { place < length table.old.items }
    requires place { place < MAX_CONNECTIONS }
    ensures steps { IfOk result (λ given. StepsAt (tellings V.told C.told C.faults C.pauses) step drained
        place (held_at table.old.items place) table.old.items table.new.items service.old service.new
        (action_of given)) }
    ensures lacks { OnErr result (LacksAt step place table.old.items table.new.items service.old
        service.new) }
    ensures length { length table.new.items ≡ length table.old.items }
{
    let Some(connection) = &mut table[place] else {
        return Ok(plain_action(ServerStep::Connection(step)));
    };
    let waited = connection.waits();
    match step_connection(connection, step, service, drained) {
        Ok(next) => Ok(connection_action(waited, drained, place as u32, next)),
        Err(lacking) => Err(lacking),
    }
}

// Whether a connection can be put at a place.
pub(crate) fn is_free_at<V: Service + Drop, C: Stream + Drop>(
    table: &Vec<Option<ServedConnection<V, C>>>,
    index: u32,
) -> bool
    ensures free { IsTrue result → IsFree index table.now.items }
    ensures other { IsFree index table.now.items → IsTrue result }
{
    let place = index as usize;
    if place >= table.len() {
        return false;
    }
    match &table[place] {
        None => true,
        Some(_) => false,
    }
}

// Whether a connection at a place waits for its stream.
pub(crate) fn waits_at<V: Service + Drop, C: Stream + Drop>(
    table: &Vec<Option<ServedConnection<V, C>>>,
    place: usize,
) -> bool
    requires { place < length table.now.items }
    ensures { result ≡ waits_in (held_at table.now.items place) }
{
    match &table[place] {
        None => false,
        Some(connection) => connection.waits(),
    }
}

// Whether a connection at a place has ended.
fn is_over_at<V: Service + Drop, C: Stream + Drop>(
    table: &Vec<Option<ServedConnection<V, C>>>,
    place: usize,
) -> bool
    requires { place < length table.now.items }
    ensures over { IsTrue result → IsOverAt (held_at table.now.items place) }
    ensures going { IsOverAt (held_at table.now.items place) → IsTrue result }
{
    match &table[place] {
        None => false,
        Some(connection) => connection.is_over(),
    }
}

// Takes a connection that has ended from its place.
fn take_at<V: Service + Drop, C: Stream + Drop>(
    table: &mut Vec<Option<ServedConnection<V, C>>>,
    place: usize,
) -> Option<ServedConnection<V, C>>
    requires { place < length table.old.items }
    ensures takes { TakesAt place table.old.items table.new.items result }
    ensures length { length table.new.items ≡ length table.old.items }
{
    if is_over_at(table, place) {
        return table[place].take();
    }
    None
}

// What a connection was that has ended, taken from its place.
pub(crate) fn take_served<V: Service + Drop, C: Stream + Drop>(
    table: &mut Vec<Option<ServedConnection<V, C>>>,
    index: u32,
) -> Option<Served<V, C>>
    ensures takes { TakesServed index table.old.items table.new.items result }
    ensures length { length table.new.items ≡ length table.old.items }
{
    let place = index as usize;
    if place >= table.len() {
        return None;
    }
    let Some(connection) = take_at(table, place) else {
        return None;
    };
    Some(connection.finish(index))
}
