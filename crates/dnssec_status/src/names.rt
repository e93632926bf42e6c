//! The names of rolls and actions.
ghost use Rattle.std.specs.Prelude.{◌≡◌, ◌++◌, OnOk, codes};
ghost use Rattle.dnssec_status.specs.Names.{action_json, roll_json};

use crate::json::{Writer, push_bytes};
use dnssec_key::roll_name;
use dnssec_keyset::{Action, RollType};
use dnssec_record::action_name;
use std::alloc::AllocError;

/// Appends `name` to `out` between quotes. The name of a roll or of an action needs no escapes. If
/// memory runs out, it fails, and `out` may end in a part of this.
fn push_name(out: &mut Vec<u8>, name: &str) -> Result<(), AllocError>
    ensures { OnOk result (out.new.items ≡ out.old.items
        ++ (codes "\"" ++ name.now ++ codes "\"")) }
{
    push_bytes(out, b"\"")?;
    push_bytes(out, name.as_bytes())?;
    push_bytes(out, b"\"")
}

/// Appends the name of `roll` to `out` between quotes, as scripts spell it: `"ksk-roll"`. If memory
/// runs out, it fails, and `out` may end in a part of this.
#[tactic(auto, unfolding(crate::specs::Names::roll_json))]
pub(crate) fn push_roll_name(out: &mut Vec<u8>, roll: RollType) -> Result<(), AllocError>
    ensures { OnOk result (out.new.items ≡ out.old.items ++ roll_json roll) }
{
    push_name(out, roll_name(roll))
}

/// Writes the names of rolls, or of actions.
#[derive(Drop)]
pub(crate) struct Names;

impl Writer<RollType> for Names {
    ghost json = { λ _ roll. roll_json roll };

    /// Appends the name of `roll` to `out` between quotes, as scripts spell it. If memory runs out,
    /// it fails, and `out` may end in a part of this.
    fn push(&self, out: &mut Vec<u8>, roll: &RollType) -> Result<(), AllocError> {
        push_roll_name(out, *roll)
    }
}

impl Writer<Action> for Names {
    ghost json = { λ _ action. action_json action };

    /// Appends the name of `action` to `out` between quotes, as the answers to calls spell it. If
    /// memory runs out, it fails, and `out` may end in a part of this.
    fn push(&self, out: &mut Vec<u8>, action: &Action) -> Result<(), AllocError> {
        push_name(out, action_name(*action))
    }
}
