//! Controls as they are known.
ghost use Rattle.std.specs.Prelude.{◌≡◌, [], ◌∷◌, ◌++◌, false, find, is_some, option_map, OnOk, OnErr};
ghost use Rattle.std.specs.Str.{bytes_eq};
ghost use Rattle.iss_known.specs.Reading.{with_control_known};

use iss_index::Names;
use iss_model::{Token, Window};
use std::alloc::{AllocError, Global};
use std::marker::Model;

/// A control's name, and its window, which no later control of that name changes.
#[derive(Clone, Copy)]
pub struct ControlKnown {
    pub name: Token,
    pub window: Window,
}

/// Controls in the order in which they were made, the first of each name. Contracts see their list.
#[derive(Drop)]
pub(crate) struct Controls {
    list: Vec<ControlKnown>,
    names: Names,
}

impl Model for Controls {
    ghost use Rattle.std.specs.Prelude.{◌≡◌, List, map};
    ghost use Rattle.iss_known.specs.declared.controls.ControlKnown.{ControlKnown};

    ghost Value = { List ControlKnown };

    ghost view = { λ c. c.list.items };

    ghost invariant = { λ c. c.names ≡ map (λ k. k.name) c.list.items };
}

impl Controls {
    /// No control. Nothing is allocated.
    pub(crate) fn new(alloc: Global) -> Controls
        ensures { result ≡ [] }
    {
        Controls {
            list: Vec::new(alloc),
            names: Names::new(alloc),
        }
    }

    pub(crate) fn as_slice(&self) -> &[ControlKnown]
        ensures { result.now ≡ self.now }
    {
        &self.list
    }

    /// The window of the control of that name, or `None` if there is none.
    pub(crate) fn window_of(&self, control: &Token) -> Option<Window>
        ensures { result ≡ option_map (λ k. k.window) (find (λ k. bytes_eq k.name control.now) self.now) }
    {
        let place = self.names.find(control)?;
        Some(self.list[place as usize].window)
    }

    /// Whether there is a control of that name.
    fn has(&self, control: &Token) -> bool
        ensures { result ≡ is_some (find (λ k. bytes_eq k.name control.now) self.now) }
    {
        self.names.find(control).is_some()
    }

    /// Adds a control after the others, unless there is one of its name. If an allocation fails, all stays as it was.
    pub(crate) fn add(&mut self, control: &ControlKnown) -> Result<(), AllocError>
        ensures added { OnOk result (self.new ≡ with_control_known self.old control.now) }
        ensures refused { OnErr result (self.new ≡ self.old) }
    {
        if self.has(&control.name) {
            return Ok(());
        }
        self.push(control)
    }

    /// Adds a control of a new name after the others.
    fn push(&mut self, control: &ControlKnown) -> Result<(), AllocError>
        requires new { is_some (find (λ k. bytes_eq k.name control.now.name) self.old) ≡ false }
        ensures added { OnOk result (self.new ≡ self.old ++ control.now ∷ []) }
        ensures refused { OnErr result (self.new ≡ self.old) }
    {
        self.list.reserve(1)?;
        self.names.add(&control.name)?;
        self.list.push(*control)?;
        Ok(())
    }
}
