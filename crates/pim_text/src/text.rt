//! A whole text: what it declares, and its steps.
ghost use Rattle.std.specs.Prelude.{◌≡◌, IfOk};
ghost use Rattle.std.specs.Bool.{MatchBool};
ghost use Rattle.pim_base.specs.Spelling.{BelongsTo};
ghost use Rattle.pim_text.specs.Reading.{trace_of, empty_of, IsAddedTo};
ghost use Rattle.pim_text.specs.Kinds.{Allows};

use crate::kind::Kind;
use pim_base::{Line, MAX_MUTEXES, MAX_STEPS, MAX_TASKS, Prio, Protocol, Step, StepLine};
use std::alloc::{AllocError, Global};

/// What a valid text says: what it declares, and its steps.
#[derive(Debug, Drop)]
pub struct Text {
    /// The version of the format, 1 or 2.
    pub version: u8,
    /// The base priority of each task, that of task 1 first.
    pub bases: Vec<Prio>,
    /// The protocol of each mutex, that of mutex 1 first.
    pub protocols: Vec<Protocol>,
    /// The step lines, in order.
    pub lines: Vec<StepLine>,
}

impl Text {
    /// Returns the text of the version line alone. It doesn't allocate.
    pub(crate) fn new(alloc: Global, version: u8) -> Text
        ensures { trace_of result ≡ empty_of version }
    {
        Text {
            version,
            bases: Vec::new(alloc),
            protocols: Vec::new(alloc),
            lines: Vec::new(alloc),
        }
    }

    /// Takes one more line, and returns whether it may follow those of the text.
    pub(crate) fn add(&mut self, line: &Line) -> Result<bool, AllocError>
        ensures added { IfOk result (IsAddedTo (trace_of self.old) line.now (trace_of self.new)) }
    {
        match line {
            Line::Task { number, base } => {
                let next = self.bases.len() + 1;
                if next > MAX_TASKS
                    || usize::from(number.get()) != next
                    || !self.protocols.is_empty()
                    || !self.lines.is_empty()
                {
                    return Ok(false);
                }
                self.bases.push(*base)?;
                Ok(true)
            }
            Line::Mutex { number, protocol } => {
                let next = self.protocols.len() + 1;
                if next > MAX_MUTEXES
                    || usize::from(number.get()) != next
                    || !self.lines.is_empty()
                {
                    return Ok(false);
                }
                self.protocols.push(*protocol)?;
                Ok(true)
            }
            Line::Step(line) => self.add_step(line),
        }
    }

    /// Returns whether the version of this text has the line.
    pub(crate) fn version_has(&self, line: &Line) -> bool
        ensures { MatchBool result (BelongsTo self.now.version line.now) (BelongsTo self.now.version line.now → ⊥) }
    {
        line.since() <= self.version
    }

    /// Returns whether a text of this kind may go on with the line.
    pub(crate) fn allows(&self, line: &Line, kind: Kind) -> bool
        ensures { MatchBool result
            (Allows kind (trace_of self.now) line.now)
            (Allows kind (trace_of self.now) line.now → ⊥) }
    {
        match line {
            Line::Step(line) if kind == Kind::Script => {
                line.recorded.is_none() && usize::from(line.step.actor.get()) <= self.bases.len()
            }
            Line::Step(_) | Line::Task { .. } | Line::Mutex { .. } => true,
        }
    }

    /// Takes one more step line, and returns whether there is room for it within the limit.
    fn add_step(&mut self, line: &StepLine) -> Result<bool, AllocError>
        ensures added { IfOk result (IsAddedTo (trace_of self.old) (Line.Step line.now) (trace_of self.new)) }
    {
        if self.lines.len() >= MAX_STEPS {
            return Ok(false);
        }
        // Taken apart, since the generated proof copies an operation only where it stands by itself.
        let Step { actor, op } = line.step;
        self.lines.push(StepLine {
            step: Step { actor, op },
            recorded: line.recorded,
        })?;
        Ok(true)
    }
}
