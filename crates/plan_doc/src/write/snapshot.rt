// Snapshots, as they are written.

ghost use Rattle.std.specs.Prelude.{◌≡◌, IfOk, Ok, option_map};
ghost use Rattle.plan_json.specs.Exact.{IsExact};
ghost use Rattle.plan_json.specs.Values.{whole, list_of};
ghost use Rattle.plan_doc.specs.Ranges.{AreParts};
ghost use Rattle.plan_doc.specs.Written.{numbers_given, snapshot_data, text_of_snapshot, snapshot_of_bytes};

use crate::write::form::InDocument;
use plan_base::{ListOf, Snapshot};
use plan_json::{Each, Json, json_text, object};
use std::alloc::{AllocError, Global};

/// The quotas, where there are any.
fn quotas_given(quotas: &ListOf<u64>) -> Option<&ListOf<u64>>
    ensures { option_map (λ quotas. list_of whole quotas.now) result ≡ numbers_given quotas.now }
{
    if quotas.is_empty() {
        None
    } else {
        Some(quotas)
    }
}

/// A snapshot as its document: a value of [`object!`] that has the members which [`write_snapshot`] names.
#[derive(Drop)]
pub struct SnapshotDoc<'a>(pub &'a Snapshot);

impl<'a> Json for SnapshotDoc<'a> {
    ghost value = { λ doc. snapshot_data doc.0.now };

    ghost levels = { 7 };

    fn write(&self, out: &mut Vec<u8>) -> Result<(), AllocError> {
        let parts = self.0.parts();
        let quotas = quotas_given(&parts.quotas);
        object!(
            "first": parts.first.0,
            "groups": Each { form: InDocument, items: &parts.groups },
            "len": parts.len,
            "quotas"?: &quotas,
            "skies": Each { form: InDocument, items: &parts.skies },
            "slices": parts.slices,
            "telescopes": Each { form: InDocument, items: &parts.telescopes },
            "version": parts.version,
        )
        .write(out)
    }
}

/// The document of a snapshot, as compact text with members in byte order and no newline: all that [`read_snapshot`]
/// reads, `fade` only where it is above 0, `quota` only where the group names one, and `quotas` only where there are
/// any. A snapshot whose counts and other numbers are in the ranges of [`read_snapshot`] is read from it again. Fails
/// only for want of memory.
///
/// [`read_snapshot`]: crate::read_snapshot
pub fn write_snapshot(alloc: Global, snapshot: &Snapshot) -> Result<Vec<u8>, AllocError>
    ensures text { IfOk result (λ bytes. bytes.items ≡ text_of_snapshot snapshot.now) }
    ensures reads_back { IfOk result
        (λ bytes. AreParts snapshot.now → snapshot_of_bytes bytes.items ≡ Ok snapshot.now) }

    // The premise of the law on texts.
    ensures exact { IfOk result (λ _. IsExact (snapshot_data snapshot.now)) }
{
    snapshot.recall_valid();
    json_text(alloc, &SnapshotDoc(snapshot))
}
