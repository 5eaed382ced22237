//! The rule between the writer of the versions and the readers, and their steps under it.

use crate::version::Version;
use atomic_table::{Join, Split};
use crossbeam_utils::rule::{Outcome, Protocol};
use left_right::reader::Reader;
use left_right::writer::Writer;
use pim_base::{Entry, Step};
use pim_manager::Manager;
use std::collections::LinkedList;

/// What the writer or a reader knows: the start, once it was given that, and the entries that it has seen. The type exists
/// for proofs, and the program makes no value of it.
pub struct Known {
    pub start: Option<Manager>,
    pub seen: LinkedList<Entry>,
}

/// The version is the state after the published list, and what each one knows is true.
pub struct VersionRule;

impl Protocol<Version, Known> for VersionRule {
    ghost use Rattle.pim_shared.specs.Rules.{Keeps, newcomer};

    ghost holds = { λ version all. Keeps version all };

    ghost first = { newcomer };
}

/// The writer learns the start. It publishes no entry for that.
pub struct Begins;

impl Outcome<Version, Known> for Begins {
    ghost use Rattle.pim_shared.specs.Rules.{begins};

    ghost then = { begins };
}

/// The published list grows by one entry.
pub struct Publishes;

impl Outcome<Version, Known> for Publishes {
    ghost use Rattle.pim_shared.specs.Rules.{publishes};

    ghost then = { publishes };
}

/// The list that a reader has seen becomes the published one.
pub struct Enters;

impl Outcome<Version, Known> for Enters {
    ghost use Rattle.pim_shared.specs.Rules.{enters};

    ghost then = { enters };
}

/// The writer gives a reader the start.
pub struct TellsStart;

impl Split<Known> for TellsStart {
    ghost use Rattle.pim_shared.specs.Rules.{unseen};

    ghost left = { λ known. known };

    ghost right = { λ known. unseen known.start };
}

impl Join<Known> for TellsStart {
    ghost use Rattle.pim_shared.specs.Rules.{told, newcomer};

    ghost both = { told };

    ghost spent = { newcomer };
}

pub type VersionWriter = Writer<Version, Step, Known, VersionRule>;

pub type VersionReader = Reader<Version, Known, VersionRule>;
