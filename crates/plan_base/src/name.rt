// Texts that name things.

ghost use Rattle.std.specs.Prelude.{◌≡◌, ℕ, ◌≤◌, ◌<◌, List, length, refl, nat_eq, IfOk, Some, None};
ghost use Rattle.std.specs.String.{string_bytes};
ghost use Rattle.std.specs.Ordering.{nat_cmp};
ghost use Rattle.std.specs.Cmp.Lexicographic.{pointwise, slice_cmp, nat_list_eq_equiv, nat_list_cmp_total, texts_ties, texts_po};
ghost use Rattle.std.specs.Cmp.{partial_equiv_from_equiv};
ghost use Rattle.std.specs.Hash as fed;
ghost use Rattle.std.specs.Cmp.Rules.{hashing};
ghost use Rattle.std.proofs.Common.{rules};
ghost use Rattle.plan_base.specs.Limits.{most_name};

use crate::greatest::MOST_NAME;
use std::alloc::{AllocError, Global};
use std::cmp::Ordering;
use std::hash::{Hash, Hasher};
use std::marker::Model;

/// A text of 0 to 128 bytes of UTF-8: a proposal, a site, a code, an instrument type or a target. Contracts see its
/// bytes, and order and equality are those of the bytes.
pub struct Name {
    text: String,
}

impl Drop for Name {
    fn drop(self) {
        let Self { text: _ } = self;
    }
}

impl Model for Name {
    ghost use Rattle.std.specs.Prelude.{List, ℕ, ◌≤◌, length};
    ghost use Rattle.std.specs.String.{string_bytes};
    ghost use Rattle.plan_base.specs.Limits.{most_name};

    ghost Value = { List ℕ };

    ghost view = { λ a. string_bytes a.text };

    ghost invariant = { λ a. length (string_bytes a.text) ≤ most_name };
}

impl Name {
    /// The name with this text; none where the text has more than 128 bytes. Fails only for want of memory.
    pub fn new(alloc: Global, text: &str) -> Result<Option<Name>, AllocError>
        ensures short { length text.now ≤ most_name → IfOk result (λ name. name ≡ Some text.now) }
        ensures long { most_name < length text.now → IfOk result (λ name. name ≡ None) }
    {
        if text.len() > MOST_NAME {
            return Ok(None);
        }
        let text = String::from_str(alloc, text)?;
        Ok(Some(Name { text }))
    }

    /// The text.
    pub fn text(&self) -> &str
        ensures value { result.now ≡ self.now }
        ensures short { length self.now ≤ most_name }
    {
        self.text.as_str()
    }
}

impl Clone for Name {
    ghost is_clone = { λ x y. y ≡ x };

    fn clone(&self) -> Result<Name, AllocError> {
        let text = self.text.clone()?;
        Ok(Name { text })
    }
}

impl PartialEq for Name {
    ghost eq = { pointwise nat_eq };

    ghost laws = { partial_equiv_from_equiv nat_list_eq_equiv };

    fn eq(&self, other: &Self) -> bool {
        self.text() == other.text()
    }
}

impl Eq for Name {
    ghost laws = { nat_list_eq_equiv };
}

impl PartialOrd for Name {
    ghost partial_cmp = { λ x y. Some (slice_cmp nat_cmp x y) };

    ghost laws = { texts_po };

    fn partial_cmp(&self, other: &Self) -> Option<Ordering> {
        Some(self.cmp(other))
    }
}

impl Ord for Name {
    ghost cmp = { slice_cmp nat_cmp };

    ghost total = { nat_list_cmp_total };

    ghost matches_partial_cmp = { λ x y. refl };

    ghost matches_eq = { texts_ties };

    fn cmp(&self, other: &Self) -> Ordering {
        self.text().cmp(other.text())
    }
}

impl Hash for Name {
    ghost hash_input = { fed.str };

    ghost respects_eq = { Prim.search (hashing, rules) };

    fn hash<H: Hasher>(&self, state: &mut H) {
        self.text().hash(state);
    }
}
