// Possible starts that are kept from one snapshot to the next.

ghost use Rattle.std.specs.Prelude.{◌≡◌, ◌≤◌, length, Some, None, IsSome, IfOk, IfErr, OnOk, OnErr};
ghost use Rattle.std.specs.Option.{ForSome};
ghost use Rattle.plan_base.specs.Limits.{most_starts};
ghost use Rattle.snapshot_starts.specs.Runs.{AreAllStarts, IsCauseOf};

use crate::fault::StartFault;
use crate::held::Held;
use crate::list::Starts;
use crate::search::Search;
use plan_base::Snapshot;
use std::alloc::Global;
use std::marker::Model;
use std::thread::Threads;

/// Possible starts that are kept from one snapshot to the next, since most are the same. Contracts see the parts of the
/// snapshot that it holds, if it holds one.
pub struct StartCache {
    held: Option<Held>,
}

impl Drop for StartCache {
    fn drop(self) {
        let Self { held: _ } = self;
    }
}

impl Model for StartCache {
    ghost use Rattle.std.specs.declared.option.Option.{Option};
    ghost use Rattle.plan_base.specs.declared.parts.Parts.{Parts};

    ghost Value = { Option Parts };

    ghost view = { λ a. a.held };
}

impl StartCache {
    /// A cache that holds no snapshot. It takes no memory.
    pub fn new() -> StartCache
        ensures { result ≡ None }
    {
        StartCache { held: None }
    }

    /// Has the cache hold this snapshot and its possible starts. Where slices are as long as in the snapshot before, and a
    /// request, its telescope and the skies of its targets are as there, its starts within both horizons are taken from
    /// there, unless the horizon begins earlier than the one before or has gained more than 16 slices for it; all others
    /// are found. A cache with another snapshot or none gives the same starts, only later. Fails as
    /// [`starts`](crate::starts) does, and is then as before.
    pub fn mend<R: Threads + Sync>(
        &mut self,
        rt: &R,
        alloc: Global,
        snapshot: &Snapshot,
    ) -> Result<(), StartFault>
        ensures ok { OnOk result (self.new ≡ Some snapshot.now) }
        ensures err { IfErr result (IsCauseOf snapshot.now) }
        ensures kept { OnErr result (self.new ≡ self.old) }
    {
        let held = self.find(rt, alloc, snapshot)?;
        self.held = Some(held);
        Ok(())
    }

    /// The snapshot with its starts, found beside what is held.
    fn find<'a, R: Threads + Sync>(
        &'a self,
        rt: &R,
        alloc: Global,
        snapshot: &'a Snapshot,
    ) -> Result<Held, StartFault>
        ensures ok { IfOk result (λ held. held ≡ snapshot.now) }
        ensures err { IfErr result (IsCauseOf snapshot.now) }
    {
        let search = match &self.held {
            Some(held) => Search::after(alloc, held, snapshot)?,
            None => Search::afresh(alloc, snapshot),
        };
        Held::find(rt, alloc, &search)
    }

    /// All possible starts of the snapshot that the cache holds: the last with which a [`mend`](StartCache::mend) was
    /// accepted, as one has to have been.
    pub fn starts(&self) -> &Starts
        requires { IsSome self.now }
        ensures all { ForSome self.now (λ s. AreAllStarts s result.now) }
        ensures few { length result.now ≤ most_starts }
    {
        match &self.held {
            Some(held) => held.starts(),
            None => unreachable!(),
        }
    }
}
