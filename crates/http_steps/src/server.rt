//! A server of HTTP/1.x as the steps of promises.
ghost use Rattle.std.specs.Prelude.{◌≡◌, IfOk, IfErr, IfSome, OnErr, IsTrue, None, false, replicate, map, []};
ghost use Rattle.promise_commands.specs.Commands.{command_of, action_of};
ghost use Rattle.http_steps.specs.Actions as actions;
ghost use Rattle.http_steps.specs.Table.{tellings, waiting_at, IsFree};
ghost use Rattle.http_steps.specs.Server.{Runs, Moves, RunsOut, MovesOut, Admits, Takes};

use crate::actions::{admit_commands, first_commands, plain_action};
use crate::names::{DRAIN_CELL, FIRST_CELL, MAX_CONNECTIONS};
use crate::server_step::{ServerStep, place_of, step_of};
use crate::table::{empty_table, is_free_at, step_at, take_served, waits_at};
use http_core::Service;
use http_stream::{ConnectionStep, Served, ServedConnection};
use kj_base::{Name, NoMemory, NodeId, Outcome, StepId};
use kj_io::Stream;
use promise_commands::{Action, Commands, Steps};
use std::alloc::Global;
use std::marker::Model;

/// A server of connections, with the service that answers them. Each connection has a place, which
/// is the value of its promises.
#[derive(Drop)]
pub struct HttpSteps<V: Service, C: Stream> {
    alloc: Global,
    service: V,
    table: Vec<Option<ServedConnection<V, C>>>,
    drained: bool,
    lacks: u64,
}

impl<V: Service, C: Stream> Model for HttpSteps<V, C> {
    ghost use Rattle.std.specs.Prelude.{length, ◌≤◌};
    ghost use Rattle.http_steps.specs.declared.names.TheConstants.{MAX_CONNECTIONS};
    ghost use Rattle.http_steps.specs.Server.{Server};

    ghost Value = { Server V C };

    ghost view = { λ s. record {
      service = s.service;
      places = s.table.items;
      drained = s.drained;
      lacks = s.lacks;
    } };

    ghost invariant = { λ s. length s.table.items ≤ MAX_CONNECTIONS };
}

impl<V: Service + Drop, C: Stream + Drop> HttpSteps<V, C> {
    /// A server with so many places, at most `MAX_CONNECTIONS`. Where memory is lacking the service
    /// comes back.
    pub fn new(
        alloc: Global,
        service: V,
        connections: u32,
    ) -> Result<HttpSteps<V, C>, (NoMemory, V)>
        ensures places { IfOk result (λ server. server.places ≡ replicate connections None) }
        ensures service { IfOk result (λ server. server.service ≡ service) }
        ensures drained { IfOk result (λ server. server.drained ≡ false) }
        ensures back { IfErr result (λ refused. refused.1 ≡ service) }
    {
        if connections > MAX_CONNECTIONS {
            return Err((NoMemory, service));
        }
        let table = match empty_table(alloc, connections) {
            Ok(table) => table,
            Err(lacking) => return Err((lacking, service)),
        };
        Ok(HttpSteps {
            alloc,
            service,
            table,
            drained: false,
            lacks: 0,
        })
    }

    /// The commands that come before all others. Takes no memory.
    pub fn first(&self) -> Commands
        ensures { map command_of result ≡ actions.first_commands }
    {
        first_commands()
    }

    /// The cell whose value begins the drain.
    pub fn drain_cell(&self) -> Name
        ensures { result ≡ record { 0 = DRAIN_CELL } }
    {
        Name(DRAIN_CELL)
    }

    /// The cell of the connection at a place, where it waits for its stream: its last step made a
    /// read or a write that was to be made again.
    pub fn waiting(&self, index: u32) -> Option<Name>
        ensures { result ≡ waiting_at self.now.places index }
    {
        let place = index as usize;
        if place >= self.table.len() {
            return None;
        }
        if waits_at(&self.table, place) {
            return Some(Name(FIRST_CELL + index));
        }
        None
    }

    /// Whether a connection can be put at a place.
    pub fn is_free(&self, index: u32) -> bool
        ensures free { IsTrue result → IsFree index self.now.places }
        ensures other { IsFree index self.now.places → IsTrue result }
    {
        is_free_at(&self.table, index)
    }

    /// Puts a connection at a place of the table that is free; gives the commands that start it.
    /// The stream gave and took nothing yet. Takes no memory.
    pub fn admit(&mut self, index: u32, stream: C) -> Commands
        requires free { IsFree index self.old.places }
        requires fresh { IfSome (C.told stream) (λ o. (o.given ≡ []) × (o.written ≡ [])) }
        ensures commands { map command_of result ≡ actions.admit_commands index }
        ensures admits { Admits index stream self.old self.new }
    {
        let connection = ServedConnection::new(self.alloc, stream);
        self.table[index as usize] = Some(connection);
        admit_commands(index)
    }

    /// Takes a connection that has ended out of the table; its place is then free. None where it
    /// isn't there or hasn't ended.
    pub fn take(&mut self, index: u32) -> Option<Served<V, C>>
        ensures { Takes index self.old self.new result }
    {
        take_served(&mut self.table, index)
    }

    // A step of the connection at a place, where one stands there.
    fn step_place(&mut self, step: ConnectionStep, place: Option<u64>) -> Result<Action, NoMemory>
        ensures moves { IfOk result (λ action. Moves (tellings V.told C.told C.faults C.pauses) step
            place self.old self.new (action_of action)) }
        ensures lacks { OnErr result (MovesOut step place self.old self.new) }
        ensures lacked { self.new.lacks ≡ self.old.lacks }
    {
        let Some(place) = place else {
            return Ok(plain_action(ServerStep::Connection(step)));
        };
        if place >= self.table.len() as u64 {
            return Ok(plain_action(ServerStep::Connection(step)));
        }
        let drained = self.drained;
        step_at(
            &mut self.table,
            place as usize,
            step,
            &mut self.service,
            drained,
        )
    }

    // The run of a step.
    fn run_step(&mut self, step: ServerStep, place: Option<u64>) -> Result<Action, NoMemory>
        ensures runs { IfOk result (λ action. Runs (tellings V.told C.told C.faults C.pauses) step place
            self.old self.new (action_of action)) }
        ensures lacks { OnErr result (RunsOut step place self.old self.new) }
        ensures lacked { self.new.lacks ≡ self.old.lacks }
    {
        match step {
            ServerStep::Drain => {
                self.drained = true;
                Ok(plain_action(step))
            }
            ServerStep::Connection(step) => self.step_place(step, place),
            ServerStep::Failed => Ok(plain_action(step)),
            ServerStep::Payload => Ok(plain_action(step)),
            ServerStep::Foreign => Ok(plain_action(step)),
        }
    }

    /// The service; what is still in the table is dropped. Takes no memory.
    pub fn service(self) -> V
        ensures { result ≡ self.service }
    {
        self.service
    }
}

impl<V: Service + Drop, C: Stream + Drop> Steps for HttpSteps<V, C> {
    ghost use Rattle.std.specs.Prelude.{◌≡◌, ℕ, List, IfOk, OnErr, [], ◌∷◌, is_err};
    ghost use Rattle.kj_base.specs.Counts.{HasLacked};
    ghost use Rattle.kj_base.specs.Record.{Run, Free};
    ghost use Rattle.promise_commands.specs.Commands.{action_of};
    ghost use Rattle.promise_commands.specs.Telling.{Hears, untold};
    ghost use Rattle.http_steps.specs.Table.{tellings};
    ghost use Rattle.http_steps.specs.Server.{Runs, RunsOut};
    ghost use Rattle.http_steps.specs.Steps.{step_of, place_of};

    ghost told = { λ s. untold };

    ghost lacks = { λ s. s.lacks };

    fn run(&mut self, node: NodeId, step: StepId, input: &Outcome) -> Result<Action, NoMemory>
        ensures ran { IfOk result (λ action. Hears untold
            (Run node.0 step.0 input.now (action_of action) ∷ []) untold) }
        ensures none { OnErr result (Hears untold [] untold) }
        ensures lacks { HasLacked (is_err result) self.old.lacks self.new.lacks }
        ensures runs { IfOk result (λ action. Runs (tellings V.told C.told C.faults C.pauses)
            (step_of step.0) (place_of input.now) self.old self.new (action_of action)) }
        ensures out { OnErr result (RunsOut (step_of step.0) (place_of input.now)
            self.old self.new) }
    {
        let given = self.run_step(step_of(step.0), place_of(input));
        if given.is_err() {
            self.lacks = self.lacks.saturating_add(1);
        }
        given
    }

    fn freed(&mut self, node: NodeId)
        ensures freed { Hears untold (Free node.0 ∷ []) untold }
        ensures lacks { self.new.lacks ≡ self.old.lacks }
        ensures stays { self.new ≡ self.old }
    {}
}
