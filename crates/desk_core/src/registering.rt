// The lines that say what there is: instruments, telescopes, nights, skies, closures and grants.

ghost use Rattle.std.specs.Prelude.{◌≡◌, ◌≤◌, not};
ghost use Rattle.plan_base.specs.Limits.{most_grant};
ghost use Rattle.site_model.specs.declared.changes.Change.TheVariants.{Close, Reopen};
ghost use Rattle.desk_events.specs.Ranges.{AreSpans};
ghost use Rattle.desk_events.specs.declared.reply.Reply.TheVariants.{Closed, Reopened};
ghost use Rattle.desk_core.specs.Desk.{seen, Decides};
ghost use Rattle.desk_core.specs.Kept.{IsDesk, IsRoomy};
ghost use Rattle.desk_core.specs.Registering.{on_instrument, on_telescope, on_night, on_visibility, on_closure, on_grant, instrument_lacks};

use crate::desk::Desk;
use crate::set::set_of;
use allocations::{Account, Key};
use desk_events::{CommandFault, Refusal, Reply};
use plan_base::{Name, Span};
use site_model::{Code, InstrumentTimes, Scope};
use std::alloc::Global;

impl Desk {
    /// `instrument`: an instrument type is registered.
    pub(crate) fn add_instrument(
        &mut self,
        name: &Name,
        times: InstrumentTimes,
    ) -> Result<Reply, CommandFault>
        ensures { Decides (on_instrument (seen self.old) name.now times) (seen self.old) (seen self.new) result }
    {
        self.network.add_instrument(name.clone()?, times)?;
        Ok(Reply::Instrument)
    }

    /// `telescope`: a telescope is registered.
    pub(crate) fn add_telescope(
        &mut self,
        code: Code,
        class: &Name,
        instruments: &[Name],
    ) -> Result<Reply, CommandFault>
        ensures { Decides (on_telescope (seen self.old) code class.now instruments.now) (seen self.old) (seen self.new) result }
    {
        let telescope = self
            .network
            .add_telescope(code, class.clone()?, instruments)?;
        Ok(Reply::Telescope { telescope })
    }

    /// `night`: the night of a site.
    pub(crate) fn set_night(
        &mut self,
        alloc: Global,
        site: &Name,
        spans: &[Span],
    ) -> Result<Reply, CommandFault>
        requires spans { AreSpans spans.now }
        ensures { Decides (on_night (seen self.old) site.now spans.now) (seen self.old) (seen self.new) result }
    {
        let spans = set_of(alloc, spans)?;
        self.network.set_night(site, &spans)?;
        Ok(Reply::Night)
    }

    /// `visibility`: the sky of a target at a site.
    pub(crate) fn set_visibility(
        &mut self,
        alloc: Global,
        target: &Name,
        site: &Name,
        spans: &[Span],
    ) -> Result<Reply, CommandFault>
        requires spans { AreSpans spans.now }
        ensures { Decides (on_visibility (seen self.old) target.now site.now spans.now) (seen self.old) (seen self.new) result }
    {
        let spans = set_of(alloc, spans)?;
        self.network.set_visibility(target, site, &spans)?;
        Ok(Reply::Visibility)
    }

    /// `close`: telescopes are closed.
    pub(crate) fn close(
        &mut self,
        alloc: Global,
        scope: &Scope,
        spans: &[Span],
    ) -> Result<Reply, CommandFault>
        requires desk { IsDesk (seen self.old) }
        requires spans { AreSpans spans.now }
        ensures { Decides (on_closure (seen self.old) Close scope.now spans.now Closed) (seen self.old) (seen self.new) result }
    {
        let spans = set_of(alloc, spans)?;
        self.network.close(scope, &spans)?;
        Ok(Reply::Closed)
    }

    /// `reopen`: closures are taken back.
    pub(crate) fn reopen(
        &mut self,
        alloc: Global,
        scope: &Scope,
        spans: &[Span],
    ) -> Result<Reply, CommandFault>
        requires desk { IsDesk (seen self.old) }
        requires spans { AreSpans spans.now }
        ensures { Decides (on_closure (seen self.old) Reopen scope.now spans.now Reopened) (seen self.old) (seen self.new) result }
    {
        let spans = set_of(alloc, spans)?;
        self.network.reopen(scope, &spans)?;
        Ok(Reply::Reopened)
    }

    /// `grant`: a time account gets seconds.
    pub(crate) fn grant(&mut self, key: &Key, seconds: u64) -> Result<Reply, CommandFault>
        requires seconds { seconds ≤ most_grant }
        requires roomy { IsRoomy (seen self.old).books }
        ensures { Decides (on_grant (seen self.old) key.now seconds) (seen self.old) (seen self.new) result }
    {
        if !self.has_instrument_of(key) {
            return Err(Refusal::NoSuchInstrument { index: 0 }.into());
        }
        let balance = self.ledger.grant(key, seconds)?;
        Ok(Reply::Granted { balance })
    }

    /// Whether an account is on an instrument type that is registered, or on none.
    fn has_instrument_of(&self, key: &Key) -> bool
        ensures { result ≡ not (instrument_lacks (seen self.now) key.now) }
    {
        match key.account {
            Account::Ipp => true,
            Account::Standard | Account::TimeCritical | Account::RapidResponse => {
                self.network.instrument(&key.instrument).is_some()
            }
        }
    }
}
