//! The lines of a script.
ghost use Rattle.std.specs.Prelude.{◌≡◌, [], ◌∷◌, List, OnOk, IfOk};
ghost use Rattle.kj_model.specs.Calls.{turn};
ghost use Rattle.kj_model.specs.Log.{Body, Do, Logged, Wait, WasIdle, log_line, run_lines, setting_of, turned_line};
ghost use Rattle.loop_core.specs.Loops.{StandsAt};
ghost use Rattle.promise_commands.specs.Commands.{command_of};
ghost use Rattle.promise_commands.specs.Scripts.{line_of};
ghost use Rattle.promise_steps.specs.Kept.{told_by};
ghost use Rattle.promise_turns.specs.Turns.{turned_of};
ghost use Rattle.kj_script.specs.Running.{Shows};

use kj_base::{Bytes, Name, NoMemory};
use loop_core::{LoopOver, Turned};
use promise_commands::{Command, Line, NumberedLine};
use promise_names::Names;
use promise_nodes::Nodes;
use promise_steps::{ScriptSteps, print_idle, print_refused, print_waited};

// A command, with what it told, and why it was refused.
fn do_command<N: Nodes + Drop, M: Names + Drop>(
    over: &mut LoopOver<N, M>,
    steps: &mut ScriptSteps,
    text: &mut Bytes,
    number: u32,
    command: Command,
) -> Result<(), NoMemory>
    ensures { OnOk result ((bodies : List Body) (l : Logged)
        → Shows bodies (StandsAt N.rule (N.stands over.old.nodes) (M.stands over.old.names))
        (told_by steps.old) text.old l
        → Shows bodies (StandsAt N.rule (N.stands over.new.nodes) (M.stands over.new.names))
        (told_by steps.new) text.new
        (log_line (setting_of N.rule bodies) number (Do (command_of command)) l)) }
{
    let applied = over.apply(command, steps);
    steps.drain_into(text)?;
    match applied {
        Ok(()) => Ok(()),
        Err(refused) => print_refused(text, number, refused),
    }
}

// One turn, with what it told.
fn make_turn<N: Nodes + Drop, M: Names + Drop>(
    over: &mut LoopOver<N, M>,
    steps: &mut ScriptSteps,
    text: &mut Bytes,
) -> Result<Turned, NoMemory>
    ensures turned { IfOk result (λ turned. (bodies : List Body) (l : Logged)
        → Shows bodies (StandsAt N.rule (N.stands over.old.nodes) (M.stands over.old.names))
        (told_by steps.old) text.old l
        → (turn (setting_of N.rule bodies) l.state).1 ≡ turned_of turned) }
    ensures shows { IfOk result (λ turned. (bodies : List Body) (l : Logged)
        → Shows bodies (StandsAt N.rule (N.stands over.old.nodes) (M.stands over.old.names))
        (told_by steps.old) text.old l
        → Shows bodies (StandsAt N.rule (N.stands over.new.nodes) (M.stands over.new.names))
        (told_by steps.new) text.new
        (turned_line [] (turn (setting_of N.rule bodies) l.state).0 (turned_of turned) l)) }
{
    let turned = over.turn(steps);
    steps.drain_into(text)?;
    Ok(turned)
}

// A line that makes one turn.
fn do_turn<N: Nodes + Drop, M: Names + Drop>(
    over: &mut LoopOver<N, M>,
    steps: &mut ScriptSteps,
    text: &mut Bytes,
) -> Result<(), NoMemory>
    ensures { OnOk result ((bodies : List Body) (l : Logged)
        → Shows bodies (StandsAt N.rule (N.stands over.old.nodes) (M.stands over.old.names))
        (told_by steps.old) text.old l
        → Shows bodies (StandsAt N.rule (N.stands over.new.nodes) (M.stands over.new.names))
        (told_by steps.new) text.new
        (turned_line (WasIdle ∷ []) (turn (setting_of N.rule bodies) l.state).0
        (turn (setting_of N.rule bodies) l.state).1 l)) }
{
    match make_turn(over, steps, text)? {
        Turned::Idle => print_idle(text),
        Turned::Fired => Ok(()),
        Turned::NoMemory => Ok(()),
        Turned::Stopped => Ok(()),
    }
}

// A line that makes so many turns, or until one doesn't fire.
fn do_run<N: Nodes + Drop, M: Names + Drop>(
    over: &mut LoopOver<N, M>,
    steps: &mut ScriptSteps,
    text: &mut Bytes,
    turns: u32,
) -> Result<(), NoMemory>
    ensures { OnOk result ((bodies : List Body) (l : Logged)
        → Shows bodies (StandsAt N.rule (N.stands over.old.nodes) (M.stands over.old.names))
        (told_by steps.old) text.old l
        → Shows bodies (StandsAt N.rule (N.stands over.new.nodes) (M.stands over.new.names))
        (told_by steps.new) text.new (run_lines (setting_of N.rule bodies) turns l)) }
{
    let mut left = turns;
    while left > 0 {
        match make_turn(over, steps, text)? {
            Turned::Fired => left -= 1,
            _ => return Ok(()),
        }
    }
    Ok(())
}

// A wait of so many turns at most, with what it told, and how it ended.
fn do_wait<N: Nodes + Drop, M: Names + Drop>(
    over: &mut LoopOver<N, M>,
    steps: &mut ScriptSteps,
    text: &mut Bytes,
    number: u32,
    name: Name,
    turns: u32,
) -> Result<(), NoMemory>
    ensures { OnOk result ((bodies : List Body) (l : Logged)
        → Shows bodies (StandsAt N.rule (N.stands over.old.nodes) (M.stands over.old.names))
        (told_by steps.old) text.old l
        → Shows bodies (StandsAt N.rule (N.stands over.new.nodes) (M.stands over.new.names))
        (told_by steps.new) text.new
        (log_line (setting_of N.rule bodies) number (Wait name.0 turns) l)) }
{
    let waited = over.wait(name, turns, steps);
    steps.drain_into(text)?;
    print_waited(text, number, name, waited)
}

/// One line of a script, and what it did in the log.
pub(crate) fn do_line<N: Nodes + Drop, M: Names + Drop>(
    over: &mut LoopOver<N, M>,
    steps: &mut ScriptSteps,
    text: &mut Bytes,
    numbered: NumberedLine,
) -> Result<(), NoMemory>
    ensures { OnOk result ((bodies : List Body) (l : Logged)
        → Shows bodies (StandsAt N.rule (N.stands over.old.nodes) (M.stands over.old.names))
        (told_by steps.old) text.old l
        → Shows bodies (StandsAt N.rule (N.stands over.new.nodes) (M.stands over.new.names))
        (told_by steps.new) text.new
        (log_line (setting_of N.rule bodies) numbered.number (line_of numbered.line) l)) }
{
    let NumberedLine { number, line } = numbered;
    match line {
        Line::Do(command) => do_command(over, steps, text, number, command),
        Line::Turn => do_turn(over, steps, text),
        Line::Run(turns) => do_run(over, steps, text, turns),
        Line::Wait(name, turns) => do_wait(over, steps, text, number, name, turns),
    }
}
