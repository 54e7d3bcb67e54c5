//! Groups of merchant category codes.
ghost use Rattle.std.specs.Prelude.{◌≡◌, ◌∷◌, ◌++◌, [], false, is_some, OnOk, OnErr};
ghost use Rattle.iss_model.specs.declared.decision.Reason.TheVariants as reason;
ghost use Rattle.iss_model.specs.rules.Controls.{group_named, holds_mcc};
ghost use Rattle.iss_model.specs.rules.Reasons.{first_reason, is_full};
ghost use Rattle.iss_scope.specs.Merchants.{group_result_reason};

use iss_index::Index;
use iss_model::limits::MOST_OF_A_KIND;
use iss_model::{Mccs, Named, Token};
use std::alloc::{AllocError, Global};
use std::marker::Model;

/// Why a group wasn't added.
#[derive(Clone, Copy, Debug, PartialEq, Eq)]
pub enum GroupFault {
    /// There is a group of that name.
    Exists,
    /// There are 256 groups.
    Limit,
    OutOfMemory,
}

/// A name and the codes that it stands for.
#[derive(Drop)]
struct MerchantGroup {
    name: Token,
    mccs: Mccs,
}

impl Named for MerchantGroup {
    ghost name_of = { λ group. group.name };

    fn name(&self) -> &Token {
        &self.name
    }
}

/// Merchant groups in the order in which they were added. A group never changes.
#[derive(Drop)]
pub struct Groups {
    by_name: Index<MerchantGroup>,
    len: usize,
}

impl Model for Groups {
    ghost use Rattle.std.specs.Prelude.{List, map, length, ◌≡◌};
    ghost use Rattle.iss_model.specs.rules.Controls.{Group};
    ghost use Rattle.iss_scope.specs.Merchants.{group_of};

    ghost Value = { List Group };

    ghost view = { λ groups. map group_of groups.by_name };

    ghost invariant = { λ groups. groups.len ≡ length groups.by_name };
}

impl Groups {
    /// No groups. Nothing is allocated.
    pub fn new(alloc: Global) -> Groups
        ensures { result ≡ [] }
    {
        Groups {
            by_name: Index::new(alloc),
            len: 0,
        }
    }

    /// Adds a group of merchant category codes. `Exists` if there is a group of that name, else `Limit` if there are 256.
    pub fn add(&mut self, alloc: Global, name: &Token, mccs: &[u16]) -> Result<(), GroupFault>
        ensures added { OnOk result (self.new ≡ self.old ++ record { name = name.now; mccs = mccs.now } ∷ []) }
        ensures refused { OnErr result (self.new ≡ self.old) }
        ensures reason { group_result_reason result ≡ first_reason ((is_some (group_named name.now self.old), reason.Exists)
            ∷ (is_full self.old, reason.Limit) ∷ []) }
    {
        if self.has(name) {
            return Err(GroupFault::Exists);
        }
        if self.is_full() {
            return Err(GroupFault::Limit);
        }
        let mccs = Mccs::from_rising(mccs.to_vec(alloc)?);
        self.push(name, mccs)?;
        Ok(())
    }

    /// Adds a group of a new name after the others.
    fn push(&mut self, name: &Token, mccs: Mccs) -> Result<(), AllocError>
        requires new { is_some (group_named name.now self.old) ≡ false }
        requires fits { is_full self.old ≡ false }
        ensures added { OnOk result (self.new ≡ self.old ++ record { name = name.now; mccs = mccs } ∷ []) }
        ensures refused { OnErr result (self.new ≡ self.old) }
    {
        self.by_name.add(MerchantGroup { name: *name, mccs })?;
        self.len += 1;
        Ok(())
    }

    /// Whether there are as many groups as there may be.
    pub fn is_full(&self) -> bool
        ensures { result ≡ is_full self.now }
    {
        self.len >= MOST_OF_A_KIND
    }

    /// Whether there is a group of that name.
    pub fn has(&self, name: &Token) -> bool
        ensures { result ≡ is_some (group_named name.now self.now) }
    {
        self.by_name.get(name).is_some()
    }

    /// Whether the group of that name holds a code. False if there is no such group.
    pub fn holds(&self, name: &Token, mcc: u16) -> bool
        ensures { result ≡ holds_mcc mcc (group_named name.now self.now) }
    {
        match self.by_name.get(name) {
            Some(group) => group.mccs.as_slice().contains(&mcc),
            None => false,
        }
    }
}

impl From<AllocError> for GroupFault {
    ghost use Rattle.iss_scope.specs.declared.groups.GroupFault.TheVariants.{OutOfMemory};

    ghost from_gives = { λ _ fault. fault ≡ OutOfMemory };

    fn from(_: AllocError) -> GroupFault {
        GroupFault::OutOfMemory
    }
}
