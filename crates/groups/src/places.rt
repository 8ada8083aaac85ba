// Where requests stand among all, found without a search.

ghost use Rattle.std.specs.Prelude.{◌≡◌, ◌<◌, length, All, None, IfOk, SomeIff};
ghost use Rattle.plan_base.specs.Requests.{listed, place_of, IsKnown};
ghost use Rattle.groups.specs.Places.{AreNotes, ArePlaces, remainders};

use plan_base::{RequestNo, Snapshot};
use std::alloc::{AllocError, Global};

/// By what request numbers are divided; there is a note for each remainder.
const REMAINDERS: usize = 4_096;

/// A request of a snapshot, and its place among all.
#[derive(Clone, Copy)]
pub(crate) struct Note {
    /// Its number of the desk.
    pub request: RequestNo,
    /// Its place among all requests of the snapshot, from 0.
    pub place: u16,
}

/// The places of a snapshot's requests among all. Of the requests whose numbers have the same remainder by 4,096 one is
/// noted, and found at once; the others are looked for by halves.
pub struct Places {
    noted: Vec<Option<Note>>,
}

impl Drop for Places {
    fn drop(self) {
        let Self { noted: _ } = self;
    }
}

impl Places {
    /// The places of a snapshot's requests. Fails only for want of memory.
    pub fn new(alloc: Global, snapshot: &Snapshot) -> Result<Places, AllocError>
        ensures { IfOk result (ArePlaces snapshot.now) }
    {
        let mut noted = no_notes(alloc)?;
        note_all(snapshot, &mut noted);
        Ok(Places { noted })
    }

    /// The place of a request, if it is one of the snapshot's, whose places these are.
    pub(crate) fn place_of(&self, snapshot: &Snapshot, request: RequestNo) -> Option<usize>
        requires { ArePlaces snapshot.now self.now }
        ensures { SomeIff result (IsKnown snapshot.now request.0) (place_of snapshot.now request.0) }
    {
        match self.noted[request.0 as usize % REMAINDERS] {
            Some(note) if note.request.0 == request.0 => Some(usize::from(note.place)),
            _ => snapshot.place_of(request),
        }
    }

    /// The place of a request that is one of the snapshot's, whose places these are.
    pub fn known_place(&self, snapshot: &Snapshot, request: RequestNo) -> usize
        requires places { ArePlaces snapshot.now self.now }
        requires known { IsKnown snapshot.now request.0 }
        ensures value { result ≡ place_of snapshot.now request.0 }
        ensures within { result < length (listed snapshot.now) }
    {
        match self.place_of(snapshot, request) {
            Some(place) => place,
            None => unreachable!(),
        }
    }
}

/// Nothing noted for any remainder.
fn no_notes(alloc: Global) -> Result<Vec<Option<Note>>, AllocError>
    ensures count { IfOk result (λ noted. length noted.items ≡ remainders) }
    ensures none { IfOk result (λ noted. All (λ note. note ≡ None) noted.items) }
{
    let mut noted = Vec::with_capacity(alloc, REMAINDERS)?;
    while noted.len() < REMAINDERS {
        noted.push(None)?;
    }
    Ok(noted)
}

/// Notes each request, of which the last with a remainder stays.
fn note_all(snapshot: &Snapshot, noted: &mut Vec<Option<Note>>)
    requires { AreNotes snapshot.now noted.old.items }
    ensures { AreNotes snapshot.now noted.new.items }
{
    snapshot.recall_valid();
    for place in 0..snapshot.request_count() {
        let request = snapshot.request_at(place).request;
        noted[request.0 as usize % REMAINDERS] = Some(Note {
            request,
            place: place as u16,
        });
    }
}
