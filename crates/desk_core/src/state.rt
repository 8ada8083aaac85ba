// The state of a desk: how many changes it accepted, and what it keeps since it was opened.

ghost use Rattle.std.specs.Prelude.{◌≡◌, ◌<◌, ◌≤◌, ◌+◌, IfOk, IfSome, OnOk, OnErr, Some, None, Ok};
ghost use Rattle.std.specs.Option.{is_some, option_and_then, option_map};
ghost use Rattle.plan_base.specs.Limits.{most_version};
ghost use Rattle.plan_base.specs.Snapshot.{IsOrderly};
ghost use Rattle.plan_base.specs.Verdict.{IsCertified};
ghost use Rattle.plan_json.specs.Moment.{last_moment};
ghost use Rattle.desk_core.specs.Publication.{IsCheckable};
ghost use Rattle.desk_core.specs.Desk.{start, seen};
ghost use Rattle.desk_core.specs.Kept.{IsOpenedWith, IsState};
ghost use Rattle.desk_core.specs.DeskSnapshot.{snapshot_of};
ghost use Rattle.desk_core.specs.Step.{Answers, IsStep, IsSnapshotOf, new_desk, balance_in};
ghost use Rattle.desk_core.specs.History.{IsPlanning, with_published};
ghost use Rattle.desk_events.specs.Ranges.{IsCommand};

use crate::answering::changes;
use crate::desk::{Desk, Opening};
use allocations::{Key, Ledger};
use desk_events::{Command, CommandFault, Refusal, Reply};
use desk_runs::Runs;
use plan_base::{Claim, Sec, Settings, Snapshot};
use site_model::Network;
use std::alloc::{AllocError, Global};
use std::marker::Model;

/// The state of a desk. What a command costs is bounded by what is registered, open and published, all of which has limits,
/// and not by how many lines there were; one that changes groups or time goes over all open groups and the observations that
/// wait, at most 1,024 of each.
pub struct State {
    version: u64,
    desk: Option<Desk>,
    alloc: Global,
}

impl Drop for State {
    fn drop(self) {
        let Self {
            version: _,
            desk: _,
            alloc: _,
        } = self;
    }
}

impl Model for State {
    ghost use Rattle.desk_core.specs.Desk.{StateSeen};

    ghost Value = { StateSeen };

    ghost use Rattle.desk_core.specs.Inside.{seen_state, IsInside};

    ghost view = { seen_state };

    ghost invariant = { IsInside };
}

impl State {
    /// A desk that isn't opened. It takes no memory.
    pub fn empty(alloc: Global) -> Self
        ensures { result ≡ start }
    {
        State {
            version: 0,
            desk: None,
            alloc,
        }
    }

    /// How many changes were accepted.
    pub fn version(&self) -> u64
        ensures version { result ≡ self.now.version }
        ensures state { IsState self.now }
    {
        self.version
    }

    /// Whether the desk is opened.
    pub fn is_opened(&self) -> bool
        ensures { result ≡ is_some self.now.desk }
    {
        self.desk.is_some()
    }

    /// The seconds of an account: those granted and those refunded, less those charged. None where it has no grant or the desk
    /// isn't opened.
    pub fn balance(&self, key: &Key) -> Option<u64>
        ensures { result ≡ option_and_then (λ d. balance_in d key.now) self.now.desk }
    {
        let desk = self.desk.as_ref()?;
        desk.ledger.balance(key)
    }

    /// The settings that a plan is sought with, none where the desk isn't opened.
    pub fn settings(&self) -> Option<Settings>
        ensures { result ≡ option_map (λ d. d.opening.settings) self.now.desk }
    {
        let desk = self.desk.as_ref()?;
        Some(desk.opening.settings)
    }

    /// The snapshot that a plan is made of, none where the desk isn't opened. Fails only for want of memory.
    pub fn snapshot(&self) -> Result<Option<Snapshot>, AllocError>
        ensures { IfOk result (λ found. found ≡ option_map (snapshot_of self.now.version) self.now.desk) }
    {
        let Some(desk) = &self.desk else {
            return Ok(None);
        };
        let snapshot = desk.snapshot(self.alloc, self.version)?;
        Ok(Some(snapshot))
    }

    /// Publishes a claim that is certified for the snapshot of the desk as it is, and counts the change. Fails only for want of
    /// memory, and then changes nothing.
    pub fn publish_certified(&mut self, snapshot: Snapshot, claim: &Claim) -> Result<(), AllocError>
        requires version { self.old.version < most_version }
        requires snapshot { IsSnapshotOf self.old snapshot }
        requires certified { IsCertified snapshot claim.now }
        ensures published { OnOk result (self.new ≡ with_published self.old self.old.desk claim.now) }
        ensures unchanged { OnErr result (self.new ≡ self.old) }
    {
        let Some(desk) = &mut self.desk else {
            unreachable!();
        };
        desk.publish_certified(self.alloc, snapshot, claim)?;
        self.version += 1;
        Ok(())
    }

    /// Recalls what is so of the last publication: its parts are in order, and a check of its document says Yes. It does nothing.
    pub fn recall_published(&self)
        ensures { IfSome self.now.desk (λ d. IfSome d.published (λ p. IsOrderly p.snapshot × IsCheckable p.snapshot p.claim)) }
    {
        if let Some(desk) = &self.desk {
            if let Some(publication) = &desk.published {
                publication.snapshot().recall_valid();
            }
        }
    }

    /// Does a command, any but `plan` on an opened desk, which is no single step, and says what is replied. A refused
    /// command changes nothing. Fails only for want of memory, and then changes nothing.
    pub fn apply(&mut self, command: &Command) -> Result<Reply, AllocError>
        requires version { self.old.version < most_version }
        requires ranges { IsCommand command.now }
        requires step { ¬ (IsPlanning self.old (Ok command.now)) }
        ensures step { IfOk result (λ reply. IsStep self.old command.now record { reply = reply; state = self.new }) }
        ensures unchanged { OnErr result (self.new ≡ self.old) }
    {
        match self.answer(command) {
            Ok(reply) => Ok(reply),
            Err(CommandFault::Refused(refusal)) => Ok(Reply::Refused(refusal)),
            Err(CommandFault::NoMemory) => Err(AllocError),
        }
    }

    /// What is replied to a command, or why there is no reply.
    fn answer(&mut self, command: &Command) -> Result<Reply, CommandFault>
        requires version { self.old.version < most_version }
        requires ranges { IsCommand command.now }
        requires step { ¬ (IsPlanning self.old (Ok command.now)) }
        ensures { Answers self.old command.now self.new result }
    {
        let Some(desk) = &mut self.desk else {
            return self.answer_unopened(command);
        };
        let reply = desk.answer(self.alloc, self.version, command)?;
        self.version += changes(command);
        Ok(reply)
    }

    /// What is replied before the desk is opened.
    fn answer_unopened(&mut self, command: &Command) -> Result<Reply, CommandFault>
        requires closed { self.old.desk ≡ None }
        requires version { self.old.version < most_version }
        requires ranges { IsCommand command.now }
        ensures { Answers self.old command.now self.new result }
    {
        let Command::Open {
            now,
            slice,
            horizon,
            semester,
            lanes,
            rounds,
            workers,
            quota,
        } = command
        else {
            return Err(CommandFault::Refused(Refusal::NotOpened));
        };
        let opening = Opening {
            slice: *slice,
            horizon: *horizon,
            semester: *semester,
            settings: Settings {
                lanes: *lanes,
                rounds: *rounds,
                workers: *workers,
            },
            quota: *quota,
        };
        self.open(opening, *now)?;
        Ok(Reply::Opened)
    }

    /// Opens the desk, which isn't opened.
    fn open(&mut self, opening: Opening, now: Sec) -> Result<(), AllocError>
        requires closed { self.old.desk ≡ None }
        requires opening { IsOpenedWith opening }
        requires moment { now.0 ≤ last_moment }
        requires version { self.old.version < most_version }
        ensures opened { OnOk result (self.new ≡ record { version = self.old.version + 1; desk = Some (new_desk opening now) }) }
        ensures unchanged { OnErr result (self.new ≡ self.old) }
    {
        let desk = new_desk(self.alloc, opening, now)?;
        self.desk = Some(desk);
        self.version += 1;
        Ok(())
    }
}

/// A desk that is opened. Fails only for want of memory.
fn new_desk(alloc: Global, opening: Opening, now: Sec) -> Result<Desk, AllocError>
    ensures { IfOk result (λ desk. seen desk ≡ new_desk opening now) }
{
    Ok(Desk {
        opening,
        network: Network::new(alloc)?,
        ledger: Ledger::new(alloc),
        submitted: Vec::new(alloc),
        runs: Runs::new(alloc, opening.slice, now),
        published: None,
    })
}
