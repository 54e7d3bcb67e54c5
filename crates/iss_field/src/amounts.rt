//! The forms of fields that are money, in the currency of their line.
ghost use Rattle.iss_field.specs.Values.{amount_of, limit_of};

use crate::fields::Form;
use crate::found::{text, whole};
use iss_amount::{read, read_limit, whole as whole_amount, whole_limit};
use iss_model::Currency;
use json::Value;

/// An amount in minor units of that currency, of a text such as `10.00` or of a number of whole units.
#[derive(Clone, Copy)]
pub struct AmountForm(pub Currency);

impl Form for AmountForm {
    type Said = u64;

    ghost said = { λ form. amount_of form.0 };

    #[tactic(auto, unfolding(crate::specs::Values::amount_of))]
    fn read(self, found: &Value<'_>) -> Option<u64> {
        match text(found) {
            Some(text) => read(text.as_bytes(), self.0),
            None => whole_amount(whole(found)?, self.0),
        }
    }
}

/// A limit in minor units of that currency, which may be 0 and greater than an amount.
#[derive(Clone, Copy)]
pub struct LimitForm(pub Currency);

impl Form for LimitForm {
    type Said = u64;

    ghost said = { λ form. limit_of form.0 };

    #[tactic(auto, unfolding(crate::specs::Values::limit_of))]
    fn read(self, found: &Value<'_>) -> Option<u64> {
        match text(found) {
            Some(text) => read_limit(text.as_bytes(), self.0),
            None => whole_limit(whole(found)?, self.0),
        }
    }
}
