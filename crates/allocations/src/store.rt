// The books as they are kept: accounts, entries and holds by place, with sums beside them.

ghost use Rattle.std.specs.Prelude.{◌≡◌, ◌+◌, ◌^◌, ◌<◌, ◌≤◌, ◌++◌, ◌∷◌, [], ◌↔◌, Some, IsTrue, All, Any, Contains};
ghost use Rattle.std.specs.Prelude.{IfSome, MatchOption, IfOk, IfErr, OnOk, OnErr, length, slice_get, option_copied, vec_len, vec_capacity};
ghost use Rattle.std.specs.List.{insert};
ghost use Rattle.std.specs.Ordering.{nat_cmp};
ghost use Rattle.std.specs.BTreeSet.{insert_key};
ghost use Rattle.allocations.specs.declared.entry.EntryKind.TheVariants.{Charge};
ghost use Rattle.allocations.specs.Key.{key_cmp};
ghost use Rattle.allocations.specs.Rising.{Rises, IsGap, IsFoundAt};
ghost use Rattle.allocations.specs.Raw.{key_at, posted, held_at};
ghost use Rattle.allocations.specs.Store.{group_at, given_at, left_after, with_posting, with_group, numbers_of, empty_group};
ghost use Rattle.allocations.specs.Store.{amount_keys, refunds_of, freed_postings, freed_store, refunded_store, CanHold, CanPost, IsSound};

use crate::entry::EntryKind;
use crate::key::Key;
use crate::posting::{GroupState, Posting};
use crate::register::Register;
use crate::sums::{Amount, Sums, lower, raise, seconds_at, seconds_in};
use plan_base::{GroupNo, ListOf, Name, RequestNo};
use std::alloc::{AllocError, Global};
use std::marker::Model;
use std::mem;

/// Accounts, entries and groups, with the balance and the held seconds of each account.
pub(crate) struct Store {
    register: Register,
    sums: Vec<Sums>,
    postings: Vec<Posting>,
    groups: Vec<GroupState>,
    spare: usize,
}

impl Drop for Store {
    fn drop(self) {
        let Self {
            register: _,
            sums: _,
            postings: _,
            groups: _,
            spare: _,
        } = self;
    }
}

impl Model for Store {
    ghost use Rattle.allocations.specs.Store.{StoreSeen};

    ghost Value = { StoreSeen };

    ghost use Rattle.allocations.specs.StoreInside.{seen_store, IsStore};

    ghost view = { seen_store };

    ghost invariant = { IsStore };
}

impl Store {
    /// No account, no entry and no group.
    pub(crate) fn new(alloc: Global) -> Self
        ensures keys { result.keys ≡ [] }
        ensures listed { result.listed ≡ [] }
        ensures postings { result.postings ≡ [] }
        ensures groups { result.groups ≡ [] }
    {
        Store {
            register: Register::new(alloc),
            sums: Vec::new(alloc),
            postings: Vec::new(alloc),
            groups: Vec::new(alloc),
            spare: 0,
        }
    }

    /// How many accounts there are.
    pub(crate) fn accounts(&self) -> usize
        ensures { result ≡ length self.now.listed }
    {
        self.register.len()
    }

    /// The key of the account at a place.
    pub(crate) fn key(&self, place: usize) -> &Key
        requires { place < length self.now.keys }
        ensures { result.now ≡ key_at self.now.keys place }
    {
        self.register.key(place)
    }

    /// The account at a place in the order of keys.
    pub(crate) fn account(&self, index: usize) -> Option<&Key>
        ensures key { option_copied result ≡ slice_get self.now.listed index }
        ensures rising { Rises key_cmp self.now.listed }
        ensures listed { All (Contains self.now.keys) self.now.listed }
        ensures all { All (Contains self.now.listed) self.now.keys }
        ensures sound { IsSound self.now }
    {
        self.register.get(index)
    }

    /// The place of an account, or where it would stand in the order of keys.
    pub(crate) fn find(&self, key: &Key) -> Result<usize, usize>
        ensures found { IfOk result (λ place. slice_get self.now.keys place ≡ Some key.now) }
        ensures listed { OnOk result (insert_key key_cmp self.now.listed key.now ≡ self.now.listed) }
        ensures gap { IfErr result (IsGap key_cmp self.now.listed key.now) }
        ensures absent { OnErr result (¬ (Contains self.now.keys key.now)) }
        ensures sound { IsSound self.now }
    {
        self.register.find(key)
    }

    /// Whether a proposal has an account.
    pub(crate) fn knows(&self, proposal: &Name) -> bool
        ensures known { IsTrue result ↔ Any (λ key. key.proposal ≡ proposal.now) self.now.keys }
        ensures sound { IsSound self.now }
    {
        self.register.knows(proposal)
    }

    /// What an account has, and what groups hold of it.
    pub(crate) fn sums(&self, place: usize) -> Sums
        requires { place < length self.now.keys }
        ensures balance { result.balance + posted Charge place self.now.postings ≡ given_at place self.now.postings }
        ensures held { result.held ≡ held_at place self.now.groups }
        ensures covered { result.held ≤ result.balance }
        ensures sound { IsSound self.now }
    {
        self.sums[place]
    }

    /// Adds an account where it stands in the order of keys, and gives its place. Fails only for want of memory, and then
    /// changes nothing.
    pub(crate) fn add_account(&mut self, index: usize, key: &Key) -> Result<usize, AllocError>
        requires gap { IsGap key_cmp self.old.listed key.now index }
        requires absent { ¬ (Contains self.old.keys key.now) }
        ensures ok { OnOk result (self.new ≡ record self.old { keys = self.old.keys ++ key.now ∷ []; listed = insert_key key_cmp self.old.listed key.now }) }
        ensures place { IfOk result (λ place. place ≡ length self.old.keys) }
        ensures err { OnErr result (self.new ≡ self.old) }
    {
        let place = self.sums.len();
        self.sums.reserve(1)?;
        self.register.add(index, key)?;
        let sums = Sums {
            balance: 0,
            held: 0,
        };
        self.sums.push(sums)?;
        Ok(place)
    }

    /// Makes room for entries. Fails only for want of memory.
    pub(crate) fn reserve(&mut self, entries: usize) -> Result<(), AllocError>
        ensures spare { OnOk result (entries ≤ self.new.spare) }
        ensures least { self.old.spare ≤ self.new.spare }
        ensures rest { self.new ≡ record self.old { spare = self.new.spare } }
        ensures sound { IsSound self.old }
    {
        self.postings.reserve(entries)?;
        self.spare = self.spare.max(entries);
        Ok(())
    }

    /// Adds an entry.
    pub(crate) fn post(&mut self, posting: Posting)
        requires spare { 0 < self.old.spare }
        requires place { posting.account < length self.old.keys }
        requires room { CanPost self.old posting.account posting.kind posting.seconds }
        ensures posted { self.new ≡ with_posting self.old posting }
        ensures sound { IsSound self.new }
    {
        let sums = self.sums[posting.account];
        self.sums[posting.account] = sums.after(posting.kind, posting.seconds);
        self.postings.push_reserved(posting);
        self.spare -= 1;
    }

    /// Where a group stands, or where it would.
    pub(crate) fn group_index(&self, group: GroupNo) -> Result<usize, usize>
        ensures found { IsFoundAt nat_cmp (numbers_of self.now.groups) group.0 result }
        ensures sound { IsSound self.now }
    {
        let number = group.0;
        self.groups
            .binary_search_by(|state| state.group.0.cmp(&number))
    }

    /// Where a group stands, if it is there.
    pub(crate) fn find_group(&self, group: GroupNo) -> Option<usize>
        ensures found { let numbers = numbers_of self.now.groups in
            MatchOption result (¬ (Contains numbers group.0)) (λ index. slice_get numbers index ≡ Some group.0) }
        ensures within { IfSome result (λ index. index < length self.now.groups) }
        ensures sound { IsSound self.now }
    {
        match self.group_index(group) {
            Ok(index) => Some(index),
            Err(_) => None,
        }
    }

    /// Makes room for a group. Fails only for want of memory.
    pub(crate) fn make_slot(&mut self) -> Result<(), AllocError>
        ensures slot { OnOk result (0 < self.new.slots) }
        ensures rest { self.new ≡ record self.old { slots = self.new.slots } }
        ensures sound { IsSound self.new }
    {
        self.groups.reserve(1)
    }

    /// Adds a group that holds nothing.
    pub(crate) fn open(&mut self, alloc: Global, index: usize, group: GroupNo)
        requires gap { IsGap nat_cmp (numbers_of self.old.groups) group.0 index }
        requires slot { 0 < self.old.slots }
        ensures { self.new ≡ record self.old { groups = insert self.old.groups index (empty_group group); slots = self.new.slots } }
    {
        let state = GroupState {
            group,
            holds: ListOf::new(alloc),
            ipp: None,
        };
        insert_reserved(&mut self.groups, index, state);
    }

    /// Ends what a group holds, and gives the list of it.
    pub(crate) fn unbook(&mut self, alloc: Global, index: usize) -> ListOf<Amount>
        requires { index < length self.old.groups }
        ensures holds { result ≡ (group_at self.old.groups index).holds }
        ensures was { IsSound self.old }
        ensures rest { self.new ≡ with_group self.old index (record (group_at self.old.groups index) { holds = [] }) }
    {
        let state = &mut self.groups[index];
        let holds = mem::replace(&mut state.holds, ListOf::new(alloc));
        lower(self.sums.as_mut_slice(), holds.as_slice());
        holds
    }

    /// Gives a group that holds nothing what it holds from now on.
    pub(crate) fn book(&mut self, index: usize, holds: ListOf<Amount>)
        requires index { index < length self.old.groups }
        requires nothing { (group_at self.old.groups index).holds ≡ [] }
        requires places { All (λ m. m.account < length self.old.keys) holds }
        requires rising { Rises key_cmp (amount_keys self.old.keys holds) }
        requires room { CanHold self.old holds }
        ensures { self.new ≡ with_group self.old index (record (group_at self.old.groups index) { holds = holds }) }
    {
        raise(self.sums.as_mut_slice(), holds.as_slice());
        self.groups[index].holds = holds;
    }

    /// Sets which ipp charge of a group stands.
    pub(crate) fn set_ipp(&mut self, index: usize, ipp: Option<Amount>)
        requires index { index < length self.old.groups }
        requires place { IfSome ipp (λ m. m.account < length self.old.keys) }
        ensures changed { self.new ≡ with_group self.old index (record (group_at self.old.groups index) { ipp = ipp }) }
        ensures sound { IsSound self.new }
    {
        self.groups[index].ipp = ipp;
    }

    /// What is left of an account by its charges and holds, with what the group at `old` gives back.
    pub(crate) fn available(&self, place: usize, old: Option<usize>) -> u64
        requires place { place < length self.now.keys }
        requires old { IfSome old (λ j. j < length self.now.groups) }
        requires fits { given_at place (freed_postings old self.now.postings self.now.groups) < 2 ^ 64 }
        ensures { result ≡ left_after self.now old place }
    {
        let sums = self.sums[place];
        match old {
            None => sums.balance - sums.held,
            Some(old) => {
                let state = &self.groups[old];
                let refunded = seconds_in(state.ipp, place);
                let freed = seconds_at(state.holds.as_slice(), place);
                sums.balance + refunded - (sums.held - freed)
            }
        }
    }

    /// Refunds the ipp charge of a group, where it stands.
    pub(crate) fn refund(&mut self, index: usize)
        requires index { index < length self.old.groups }
        requires spare { 0 < self.old.spare }
        requires fits { All (λ p. given_at p.account self.old.postings + p.seconds < 2 ^ 64) (refunds_of (group_at self.old.groups index)) }
        ensures refunded { self.new ≡ refunded_store self.old index }
        ensures sound { IsSound self.new }
    {
        let group = self.groups[index].group;
        let ipp = self.groups[index].ipp;
        self.set_ipp(index, None);
        if let Some(amount) = ipp {
            self.post(Posting {
                account: amount.account,
                kind: EntryKind::Refund,
                seconds: amount.seconds,
                group,
                request: RequestNo(0),
            });
        }
    }

    /// Ends what a group holds, and refunds its ipp charge where that stands.
    pub(crate) fn free(&mut self, alloc: Global, index: usize)
        requires index { index < length self.old.groups }
        requires spare { 0 < self.old.spare }
        requires fits { All (λ p. given_at p.account self.old.postings + p.seconds < 2 ^ 64) (refunds_of (group_at self.old.groups index)) }
        ensures freed { self.new ≡ record (freed_store self.old (Some index)) { spare = self.new.spare } }
        ensures spare { self.old.spare ≤ self.new.spare + 1 }
        ensures sound { IsSound self.new }
    {
        self.unbook(alloc, index);
        self.refund(index);
    }
}

/// Puts a group into its place, where there is room for it.
fn insert_reserved(groups: &mut Vec<GroupState>, index: usize, state: GroupState)
    requires index { index ≤ vec_len groups.old }
    requires room { vec_len groups.old < vec_capacity groups.old }
    ensures items { groups.new.items ≡ insert groups.old.items index state }
    ensures capacity { vec_capacity groups.new ≡ vec_capacity groups.old }
{
    if groups.insert(index, state).is_err() {
        unreachable!();
    }
}
