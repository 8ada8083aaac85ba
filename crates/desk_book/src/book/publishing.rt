// The plan of a caller's open Take.

ghost use Rattle.std.specs.Prelude.{◌≡◌, Some, IfOk, OnErr};
ghost use Rattle.desk_book.specs.Seen.{take_of};
ghost use Rattle.desk_book.specs.Doing.{IsPublished, IsAnswered, publish_reply};

use super::Book;
use crate::doing::publish_found;
use crate::same::is_same;
use crate::step::PublishStep;
use desk_core::State;
use desk_events::{EventEntry, Refusal, Reply, What};
use plan_base::{Outcome, Solved};
use std::alloc::AllocError;

/// What is going to be replied to what was found for a Take.
fn publish_reply(state: &State, solved: &Solved) -> Result<Reply, AllocError>
    ensures { IfOk result (λ reply. reply ≡ publish_reply state.now solved.now) }
{
    let asked = solved.taken().snapshot.parts().version;
    let newer = state.version();
    if newer != asked {
        return Ok(Reply::Refused(Refusal::Stale { asked, newer }));
    }
    match solved.outcome() {
        Outcome::Plan(claim) => Ok(Reply::Published {
            claim: claim.copy()?,
        }),
        Outcome::TooManyStarts(count) => {
            Ok(Reply::Refused(Refusal::TooManyStarts { count: *count }))
        }
    }
}

impl Book {
    /// Adds the entry of what was found for the caller's open Take.
    fn publish_kept(&mut self, solved: Solved) -> Result<EventEntry, AllocError>
        requires { take_of self.old.takes solved.taken.caller ≡ Some solved.taken }
        ensures ok { IfOk result (λ entry. IsPublished self.old solved entry self.new) }
        ensures err { OnErr result (self.new ≡ self.old) }
    {
        let caller = solved.taken().caller;
        let place = usize::from(caller);
        let line = self.done[place] + 1;
        let version = self.state.version();
        self.history.reserve(1)?;
        // The entry that is answered gets its reply before anything changes.
        let told = publish_reply(&self.state, &solved)?;
        let (taken, outcome) = solved.into_parts();
        let reply = publish_found(&mut self.state, taken, outcome)?;
        let entry = EventEntry {
            caller,
            line,
            what: What::Publish,
            version,
            reply,
        };
        self.history.push_reserved(entry);
        self.done[place] = line;
        self.takes[place] = None;
        Ok(EventEntry {
            caller,
            line,
            what: What::Publish,
            version,
            reply: told,
        })
    }

    /// Publishes what was found for the caller's open Take, or says that it is stale, since a change was accepted
    /// meanwhile, or that there are too many possible starts to be planned. Nothing is done where the caller has no
    /// open Take, or another one than this was found for.
    pub fn publish(&mut self, solved: Solved) -> Result<PublishStep, AllocError>
        ensures ok { IfOk result (λ step. IsAnswered self.old solved step self.new) }
        ensures err { OnErr result (self.new ≡ self.old) }
    {
        let Some(kept) = self.kept(solved.taken().caller) else {
            return Ok(PublishStep::NotTaken);
        };
        if !is_same(kept, solved.taken()) {
            return Ok(PublishStep::OtherTake);
        }
        let entry = self.publish_kept(solved)?;
        Ok(PublishStep::Replied(entry))
    }
}
