// Lists of one item.
#![tactic(auto, unfolding(plan_json::specs::Adds::text_of))]

ghost use Rattle.std.specs.Prelude.{suc, [], ◌∷◌};
ghost use Rattle.plan_json.specs.Adds.{Adds};
ghost use Rattle.plan_json.specs.Values.{list_of};

use plan_json::Json;
use std::alloc::AllocError;

/// Adds a byte.
fn put_byte(out: &mut Vec<u8>, byte: u8) -> Result<(), AllocError>
    ensures { Adds result out.old.items out.new.items (byte ∷ []) }
{
    out.push(byte)?;
    Ok(())
}

/// The list of one item.
#[derive(Drop)]
pub(crate) struct One<T> {
    /// The item.
    pub item: T,
}

impl<T: Json> Json for One<T> {
    ghost value = { λ one. list_of T.value (one.item ∷ []) };

    ghost levels = { suc T.levels };

    fn write(&self, out: &mut Vec<u8>) -> Result<(), AllocError> {
        put_byte(out, b'[')?;
        self.item.write(out)?;
        put_byte(out, b']')
    }
}
