//! What a drill comes to, and its line.
ghost use Rattle.std.specs.Prelude.{◌≡◌, ◌∷◌, ◌++◌, ◌+ℤ◌, codes, IfOk, OnOk};
ghost use Rattle.iss_model.specs.declared.currency.Currency.TheVariants.{Usd};
ghost use Rattle.iss_model.specs.Amounts.{amount_text};
ghost use Rattle.iss_model.specs.rules.Facts.{held_in};
ghost use Rattle.iss_model.specs.state.Cores.{core_facts};
ghost use Rattle.iss_model.specs.state.Kept.{IsSmall};
ghost use Rattle.iss_model.specs.texts.Wordings.{member_text, with_text, with_number};
ghost use Rattle.iss_model.specs.texts.DrillLines.{drill_line};
ghost use Rattle.iss_drill.specs.Names.{named};
ghost use Rattle.iss_drill.specs.Drills.{held_of_users};
ghost use Rattle.iss_drill.specs.Reports.{totals_in, IsTotals, HoldsAreFew};

use crate::names::named;
use crate::tally::Tally;
use iss_amount::write;
use iss_core::Core;
use iss_jit::{put_name, put_quoted};
use iss_model::{Account, Currency};
use itoa::Buffer;
use std::alloc::{AllocError, Global};

/// How many users there are.
const USERS: u32 = 10;

/// What a drill counted, and what then stands in US dollars, in cents.
#[derive(Clone, Copy)]
pub(crate) struct Totals {
    pub(crate) approved: u128,
    pub(crate) declined: u128,
    pub(crate) gateway: i64,
    pub(crate) held: i64,
    pub(crate) lines: u32,
    pub(crate) network: i64,
    pub(crate) notices: u128,
    pub(crate) programme: i64,
    pub(crate) records: u32,
    pub(crate) repeats: u32,
}

/// What was counted, and what stands.
pub(crate) fn taken_together(core: &Core, tally: &Tally) -> Totals
    requires { HoldsAreFew core.now.state }
    ensures { IsTotals (core_facts core.now.state) tally.now result }
{
    Totals {
        approved: tally.approved,
        declined: tally.declined,
        gateway: core.balance(&Account::Gateway(Currency::Usd)),
        held: held_of_all(core),
        lines: tally.lines,
        network: core.balance(&Account::Network(Currency::Usd)),
        notices: tally.notices,
        programme: core.balance(&Account::Programme(Currency::Usd)),
        records: core.count(),
        repeats: tally.repeats,
    }
}

/// What is held of all users together.
#[tactic(auto, using(crate::proofs::Reports::held_of_none, crate::proofs::Reports::held_of_more, crate::proofs::Holdings::next_held_fits))]
fn held_of_all(core: &Core) -> i64
    requires { HoldsAreFew core.now.state }
    ensures { result ≡ held_of_users (core_facts core.now.state) 10 }
{
    let mut held = 0;
    for digit in 0..USERS {
        held = with_held(core, held, digit);
    }
    held
}

/// The sum with what is held of the user of this digit.
fn with_held(core: &Core, held: i64, digit: u32) -> i64
    requires { IsSmall (held +ℤ held_in (core_facts core.now.state) (named (codes "u") digit) Usd) }
    ensures { result ≡ held +ℤ held_in (core_facts core.now.state) (named (codes "u") digit) Usd }
{
    held + core.held(&named(b'u', digit), Currency::Usd)
}

/// The line of a drill, with its line feed.
pub(crate) fn drill_line(alloc: Global, totals: &Totals) -> Result<Vec<u8>, AllocError>
    ensures { IfOk result (λ line. line.items ≡ drill_line (totals_in totals.now)) }
{
    let mut line = Vec::new(alloc);
    put_count(&mut line, b'{', "approved", totals.approved)?;
    put_count(&mut line, b',', "declined", totals.declined)?;
    put_amount(alloc, &mut line, "gateway", totals.gateway)?;
    put_amount(alloc, &mut line, "held", totals.held)?;
    put_count(&mut line, b',', "lines", u128::from(totals.lines))?;
    put_amount(alloc, &mut line, "network", totals.network)?;
    put_count(&mut line, b',', "notices", totals.notices)?;
    put_amount(alloc, &mut line, "programme", totals.programme)?;
    put_count(&mut line, b',', "records", u128::from(totals.records))?;
    put_count(&mut line, b',', "repeats", u128::from(totals.repeats))?;
    line.extend_from_slice(b"}\n")?;
    Ok(line)
}

/// Adds a count under its name, after the brace that opens the object or after a comma.
fn put_count(out: &mut Vec<u8>, before: u8, name: &str, count: u128) -> Result<(), AllocError>
    ensures { OnOk result (out.new.items ≡ out.old.items ++ (before ∷ member_text (with_number name.now count))) }
{
    put_name(out, before, name)?;
    out.extend_from_slice(Buffer::new().format(count).as_bytes())
}

/// Adds an amount under its name, after a comma.
fn put_amount(alloc: Global, out: &mut Vec<u8>, name: &str, amount: i64) -> Result<(), AllocError>
    ensures { OnOk result (out.new.items ≡ out.old.items ++ (44 ∷ member_text (with_text name.now (amount_text amount Usd)))) }
{
    put_name(out, b',', name)?;
    let text = write(alloc, amount, Currency::Usd)?;
    put_quoted(out, text.as_bytes())
}
