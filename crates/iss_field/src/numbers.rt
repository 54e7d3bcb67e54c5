//! The forms of fields that are a number or a flag.
ghost use Rattle.serde_json.specs.Find.{as_bool};
ghost use Rattle.iss_field.specs.Values.{whole_within};

use crate::fields::Form;
use crate::found::{flag, whole};
use json::Value;

/// A whole number from the first to the second.
#[derive(Clone, Copy)]
pub struct WholeForm(pub u64, pub u64);

impl Form for WholeForm {
    type Said = u64;

    ghost said = { λ form. whole_within form.0 form.1 };

    #[tactic(auto, unfolding(crate::specs::Values::whole_within))]
    fn read(self, found: &Value<'_>) -> Option<u64> {
        let number = whole(found)?;
        (self.0..=self.1).contains(&number).then_some(number)
    }
}

/// A whole number from the first to the second, of at most 32 bits.
#[derive(Clone, Copy)]
pub struct NumberForm(pub u32, pub u32);

impl Form for NumberForm {
    type Said = u32;

    ghost said = { λ form. whole_within form.0 form.1 };

    #[tactic(auto, using(crate::proofs::ValuesInForm::too_great), unfolding(crate::specs::Values::whole_within))]
    fn read(self, found: &Value<'_>) -> Option<u32> {
        let number = u32::try_from(whole(found)?).ok()?;
        (self.0..=self.1).contains(&number).then_some(number)
    }
}

/// `true` or `false`.
#[derive(Clone, Copy)]
pub struct FlagForm;

impl Form for FlagForm {
    type Said = bool;

    ghost said = { λ _. as_bool };

    fn read(self, found: &Value<'_>) -> Option<bool> {
        flag(found)
    }
}
