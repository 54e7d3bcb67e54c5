//! Reading the codes of a merchant group.
ghost use Rattle.std.specs.Prelude.{◌≡◌, IfOk};
ghost use Rattle.iss_model.specs.Forms.{are_mccs, are_rising};
ghost use Rattle.iss_codec.specs.Taking.{take_codes, take_mccs};
ghost use Rattle.iss_codec.specs.Readers.{taken_field, taken_codes};

use crate::reader::Reader;
use iss_model::Mccs;
use iss_model::limits::{GREATEST_MCC, MOST_MCCS};
use std::alloc::{AllocError, Global};

impl Reader<'_> {
    #[tactic(auto, unfolding(crate::specs::Taking::take_mccs))]
    pub(crate) fn take_mccs(&mut self, alloc: Global) -> Result<Option<Mccs>, AllocError>
        ensures { IfOk result (λ found. taken_field found self.new.bytes.now ≡ take_mccs self.old.bytes.now) }
    {
        let Some(count) = self.take_u16() else {
            return Ok(None);
        };
        match self.take_codes(alloc, count)? {
            Some(codes) if are_mccs(&codes) => Ok(Some(Mccs::from_rising(codes))),
            _ => Ok(None),
        }
    }

    fn take_codes(&mut self, alloc: Global, count: u16) -> Result<Option<Vec<u16>>, AllocError>
        ensures { IfOk result (λ found. taken_codes found self.new.bytes.now ≡ take_codes count self.old.bytes.now) }
    {
        let mut codes = Vec::new(alloc);
        for _ in 0..count {
            match self.take_u16() {
                Some(code) => codes.push(code)?,
                None => return Ok(None),
            }
        }
        Ok(Some(codes))
    }
}

fn are_mccs(codes: &[u16]) -> bool
    ensures { result ≡ are_mccs codes.now }
{
    !codes.is_empty() && codes.len() <= MOST_MCCS && are_rising(codes)
}

fn are_rising(codes: &[u16]) -> bool
    ensures { result ≡ are_rising 0 codes.now }
{
    let mut low = 0;
    for code in codes {
        if *code < low {
            return false;
        }
        if *code > GREATEST_MCC {
            return false;
        }
        low = *code + 1;
    }
    true
}
