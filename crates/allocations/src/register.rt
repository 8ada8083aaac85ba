// Which accounts there are.

ghost use Rattle.std.specs.Prelude.{◌≡◌, ◌++◌, ◌∷◌, [], ◌<◌, ◌↔◌, length, slice_get, All, Contains, Any, IsTrue, IfOk, IfErr, OnOk, OnErr, option_copied};
ghost use Rattle.std.specs.List.Sorted.{IsSearchInRange};
ghost use Rattle.std.specs.BTreeSet.{insert_key};
ghost use Rattle.allocations.specs.Key.{key_cmp};
ghost use Rattle.allocations.specs.Raw.{key_at};
ghost use Rattle.allocations.specs.Register.{keys_of};
ghost use Rattle.allocations.specs.Rising.{Rises, IsGap, IsFoundAt};

use crate::key::Key;
use plan_base::Name;
use std::alloc::{AllocError, Global};
use std::marker::Model;

/// An account in the order of keys.
pub(crate) struct Listed {
    /// What names it.
    pub key: Key,
    /// Its place in the register, from 0.
    pub place: usize,
}

impl Drop for Listed {
    fn drop(self) {
        let Self { key: _, place: _ } = self;
    }
}

/// The accounts, each with a place that it keeps: places count up from 0 in the order in which accounts are added.
/// Contracts see the keys by place, and the keys in their order.
pub(crate) struct Register {
    keys: Vec<Key>,
    order: Vec<Listed>,
}

impl Drop for Register {
    fn drop(self) {
        let Self { keys: _, order: _ } = self;
    }
}

impl Model for Register {
    ghost use Rattle.allocations.specs.Register.{RegisterSeen, keys_of, IsRegister};

    ghost Value = { RegisterSeen };

    ghost view = { λ a. record { keys = a.keys.items; listed = keys_of a.order.items } };

    ghost invariant = { λ a. IsRegister a.keys.items a.order.items };
}

/// Where a key stands in the order, or where it would.
fn search(order: &[Listed], key: &Key) -> Result<usize, usize>
    requires { Rises key_cmp (keys_of order.now) }
    ensures bound { IsSearchInRange result (length order.now) }
    ensures found { IsFoundAt key_cmp (keys_of order.now) key.now result }
{
    order.binary_search_by(|listed| listed.key.cmp(key))
}

impl Register {
    /// No account.
    pub(crate) fn new(alloc: Global) -> Self
        ensures keys { result.keys ≡ [] }
        ensures listed { result.listed ≡ [] }
    {
        Register {
            keys: Vec::new(alloc),
            order: Vec::new(alloc),
        }
    }

    /// How many accounts there are.
    pub(crate) fn len(&self) -> usize
        ensures { result ≡ length self.now.listed }
    {
        self.order.len()
    }

    /// The place of an account, or where it would stand in the order of keys.
    pub(crate) fn find(&self, key: &Key) -> Result<usize, usize>
        ensures found { IfOk result (λ place. slice_get self.now.keys place ≡ Some key.now) }
        ensures listed { OnOk result (insert_key key_cmp self.now.listed key.now ≡ self.now.listed) }
        ensures gap { IfErr result (IsGap key_cmp self.now.listed key.now) }
        ensures absent { OnErr result (¬ (Contains self.now.keys key.now)) }
    {
        match search(self.order.as_slice(), key) {
            Ok(index) => Ok(self.order[index].place),
            Err(index) => Err(index),
        }
    }

    /// Whether a proposal has an account.
    pub(crate) fn knows(&self, proposal: &Name) -> bool
        ensures { IsTrue result ↔ Any (λ key. key.proposal ≡ proposal.now) self.now.keys }
    {
        self.order
            .binary_search_by(|listed| listed.key.proposal.cmp(proposal))
            .is_ok()
    }

    /// The key of the account at a place.
    pub(crate) fn key(&self, place: usize) -> &Key
        requires { place < length self.now.keys }
        ensures { result.now ≡ key_at self.now.keys place }
    {
        &self.keys[place]
    }

    /// The account at a place in the order of keys.
    pub(crate) fn get(&self, index: usize) -> Option<&Key>
        ensures key { option_copied result ≡ slice_get self.now.listed index }
        ensures rising { Rises key_cmp self.now.listed }
        ensures listed { All (Contains self.now.keys) self.now.listed }
        ensures all { All (Contains self.now.listed) self.now.keys }
    {
        match self.order.get(index) {
            Some(listed) => Some(&listed.key),
            None => None,
        }
    }

    /// Adds an account where it stands in the order of keys. Fails only for want of memory, and then changes nothing.
    pub(crate) fn add(&mut self, index: usize, key: &Key) -> Result<(), AllocError>
        requires { IsGap key_cmp self.old.listed key.now index }
        ensures keys { OnOk result (self.new.keys ≡ self.old.keys ++ key.now ∷ []) }
        ensures listed { OnOk result (self.new.listed ≡ insert_key key_cmp self.old.listed key.now) }
        ensures err { OnErr result (self.new ≡ self.old) }
    {
        let listed = Listed {
            key: key.clone()?,
            place: self.keys.len(),
        };
        let key = key.clone()?;
        self.keys.reserve(1)?;
        self.order.insert(index, listed)?;
        self.keys.push(key).map_err(AllocError::from)
    }
}
