//! The fields of an object: required or not, each in its form.
ghost use Rattle.std.specs.Prelude.{◌≡◌, true, Option, IfOk, is_some, option_and_then, option_map};
ghost use Rattle.serde_json.specs.Data.{Data};
ghost use Rattle.json.specs.Value.{value_view};
ghost use Rattle.iss_field.specs.Seen.{seen, fits};
ghost use Rattle.iss_field.specs.Fields.{field, form_if, required_field, required_field_unless, optional_field, optional_field_or};
ghost use Rattle.iss_field.specs.Values.{mccs_of};

use crate::codes::mccs;
use crate::found::{is_null, member};
use crate::{Name, Object};
use iss_model::Mccs;
use json::Value;
use std::alloc::{AllocError, Global};

/// A form that a field may have.
pub trait Form: Copy {
    /// What a field in this form holds.
    type Said: Drop;

    ghost said: { Self → Data → Option Self.Said };

    /// What that value holds, or `None` if it isn't of the form.
    fn read(self, found: &Value<'_>) -> Option<Self::Said>
        ensures { result ≡ said self (seen found.now) };
}

/// The form, if the field may be there at all.
#[derive(Clone, Copy)]
pub struct FormIf<F>(pub bool, pub F);

impl<F: Form> Form for FormIf<F> {
    type Said = F::Said;

    ghost said = { λ form. form_if form.0 (F.said form.1) };

    fn read(self, found: &Value<'_>) -> Option<F::Said> {
        if self.0 { self.1.read(found) } else { None }
    }
}

impl Object<'_> {
    /// Whether there is a field of that name. `null` counts as absent.
    pub fn has(&self, name: Name) -> bool
        ensures { result ≡ is_some (field name (seen self.now.value)) }
    {
        field(&self.value, name).is_some()
    }

    /// What the field holds, if it is there and of that form.
    pub fn in_form<F: Form>(&self, name: Name, form: F) -> Option<F::Said>
        ensures { result ≡ option_and_then (F.said form) (field name (seen self.now.value)) }
    {
        field(&self.value, name).and_then(|found| form.read(found))
    }

    /// What the field holds, which has to be there. For a bad field, its name is returned.
    #[tactic(auto, unfolding(crate::specs::Fields::required_field))]
    pub fn required<F: Form>(&self, name: Name, form: F) -> Result<F::Said, Name>
        ensures { result ≡ required_field (F.said form) name (seen self.now.value) }
    {
        self.in_form(name, form).ok_or(name)
    }

    /// What the field holds, which has to be there unless it is excused.
    #[tactic(auto, unfolding(crate::specs::Fields::required_field_unless))]
    pub fn required_unless<F: Form>(
        &self,
        excused: bool,
        name: Name,
        form: F,
    ) -> Result<Option<F::Said>, Name>
        ensures { result ≡ required_field_unless excused (F.said form) name (seen self.now.value) }
    {
        match field(&self.value, name) {
            Some(found) => form.read(found).map(Some).ok_or(name),
            None if excused => Ok(None),
            None => Err(name),
        }
    }

    /// What the field holds, if it is there.
    #[tactic(auto, unfolding(crate::specs::Fields::optional_field))]
    pub fn optional<F: Form>(&self, name: Name, form: F) -> Result<Option<F::Said>, Name>
        ensures { result ≡ optional_field (F.said form) name (seen self.now.value) }
    {
        match field(&self.value, name) {
            Some(found) => form.read(found).map(Some).ok_or(name),
            None => Ok(None),
        }
    }

    /// What the field holds, or `absent` if it isn't there.
    #[tactic(auto, unfolding(crate::specs::Fields::optional_field_or))]
    pub fn optional_or<F: Form>(
        &self,
        name: Name,
        form: F,
        absent: F::Said,
    ) -> Result<F::Said, Name>
        ensures { result ≡ optional_field_or (F.said form) absent name (seen self.now.value) }
    {
        match field(&self.value, name) {
            Some(found) => form.read(found).ok_or(name),
            None => Ok(absent),
        }
    }

    /// The merchant category codes of a field, rising and each once: `None` if it isn't an array of 1 to 1000 of them.
    pub fn mccs(&self, alloc: Global, name: Name) -> Result<Option<Mccs>, AllocError>
        ensures { IfOk result (λ codes. codes ≡ option_and_then mccs_of (field name (seen self.now.value))) }
    {
        match field(&self.value, name) {
            Some(found) => mccs(alloc, found),
            None => Ok(None),
        }
    }
}

/// The member of that name; `null` counts as absent.
#[tactic(auto, unfolding(crate::specs::Fields::field))]
fn field<'v, 'a>(line: &'v Value<'a>, name: Name) -> Option<&'v Value<'a>>
    requires { fits (value_view line.now) ≡ true }
    ensures { option_map (λ found. seen found.now) result ≡ field name (seen line.now) }
{
    let found = member(line, name.text())?;
    if is_null(found) { None } else { Some(found) }
}
