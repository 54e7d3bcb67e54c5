//! Amounts by the numbers of their calls or notices.
ghost use Rattle.std.specs.Prelude.{◌≡◌, ◌++◌, [], IfOk, OnOk, map, option_to_list};
ghost use Rattle.std.specs.Option.{option_map};
ghost use Rattle.iss_exchange.specs.Amounts.{shown_amount};

use std::alloc::{AllocError, Global};
use std::marker::Model;

/// An amount in minor units, by the number of its call or notice.
#[derive(Clone, Copy, Debug, PartialEq, Eq)]
pub struct Amount {
    pub number: u32,
    pub amount: u64,
}

/// Amounts in a row. Contracts see their list.
#[derive(Drop)]
pub struct Amounts {
    list: Vec<Amount>,
}

impl Model for Amounts {
    ghost use Rattle.std.specs.Prelude.{List, map};
    ghost use Rattle.iss_exchange_laws.specs.Gaps.{Amount};
    ghost use Rattle.iss_exchange.specs.Amounts.{shown_amount};

    ghost Value = { List Amount };

    ghost view = { λ a. map shown_amount a.list.items };
}

impl Amounts {
    pub(crate) fn new(alloc: Global) -> Amounts
        ensures { result ≡ [] }
    {
        Amounts {
            list: Vec::new(alloc),
        }
    }

    /// Adds an amount, if there is one.
    pub(crate) fn put(&mut self, amount: Option<Amount>) -> Result<(), AllocError>
        ensures { OnOk result (self.new ≡ self.old ++ option_to_list (option_map shown_amount amount)) }
    {
        if let Some(amount) = amount {
            self.list.push(amount)?;
        }
        Ok(())
    }

    pub fn as_slice(&self) -> &[Amount]
        ensures { map shown_amount result.now ≡ self.now }
    {
        &self.list
    }
}
