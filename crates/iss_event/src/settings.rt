//! The fields of each type of line that sets something, in order. For a bad field, its name is returned.
ghost use Rattle.std.specs.Prelude.{◌≡◌, IfOk, codes, is_some, option_and_then};
ghost use Rattle.iss_field.specs.declared.name.Name.TheVariants as name;
ghost use Rattle.iss_field.specs.Fields.{field};
ghost use Rattle.iss_field.specs.Values.{mccs_of};
ghost use Rattle.iss_field.specs.Seen.{seen};
ghost use Rattle.iss_event.specs.Inputs.{user_input, card_input, card_move, user_move, whose_move, move_input, product_input, group_input, counts_purchases, limits_said, association_named, association_said, scope_named, scope_said, control_input, set_input, switch_input};

use iss_field::{
    CardStateForm, CurrencyForm, FlagForm, FormIf, FundingForm, LimitForm, MccForm, Name,
    NumberForm, Object, OffsetForm, TokenForm, UserStateForm, WholeForm, WindowForm,
};
use iss_model::limits::{
    DEFAULT_HOLD, DEFAULT_TIMEOUT, GREATEST_USAGE, LONGEST_HOLD, LONGEST_TIMEOUT, SHORTEST_HOLD,
    SHORTEST_TIMEOUT,
};
use iss_model::{Association, Currency, Input, Mccs, Moved, Scope, Token, Window};
use std::alloc::{AllocError, Global};

#[tactic(auto, unfolding(crate::specs::Inputs::user_input))]
pub(crate) fn user_input(line: &Object<'_>) -> Result<Input, Name>
    ensures { result ≡ user_input (seen line.now.value) }
{
    let token = line.required(Name::Token, TokenForm)?;
    let user = line.required(Name::User, TokenForm)?;
    Ok(Input::User { token, user })
}

#[tactic(auto, unfolding(crate::specs::Inputs::card_input))]
pub(crate) fn card_input(line: &Object<'_>) -> Result<Input, Name>
    ensures { result ≡ card_input (seen line.now.value) }
{
    let token = line.required(Name::Token, TokenForm)?;
    let card = line.required(Name::Card, TokenForm)?;
    let user = line.required(Name::User, TokenForm)?;
    let product = line.optional_or(Name::Product, TokenForm, default_product())?;
    let active = line.optional_or(Name::Active, FlagForm, true)?;
    Ok(Input::Card {
        token,
        card,
        user,
        product,
        active,
    })
}

#[tactic(auto, unfolding(crate::specs::Inputs::move_input))]
pub(crate) fn move_input(line: &Object<'_>) -> Result<Input, Name>
    ensures { result ≡ move_input (seen line.now.value) }
{
    let token = line.required(Name::Token, TokenForm)?;
    let card = line.optional(Name::Card, TokenForm)?;
    let who = whose_move(card, line)?;
    Ok(Input::Move { token, who })
}

fn whose_move(card: Option<Token>, line: &Object<'_>) -> Result<Moved, Name>
    ensures { result ≡ whose_move card (is_some (field name.User (seen line.now.value))) (seen line.now.value) }
{
    match (card, line.has(Name::User)) {
        (Some(_), true) => Err(Name::User),
        (Some(card), false) => card_move(card, line),
        (None, true) => user_move(line),
        (None, false) => Err(Name::Card),
    }
}

#[tactic(auto, unfolding(crate::specs::Inputs::card_move))]
fn card_move(card: Token, line: &Object<'_>) -> Result<Moved, Name>
    ensures { result ≡ card_move card (seen line.now.value) }
{
    let to = line.required(Name::To, CardStateForm)?;
    Ok(Moved::Card(card, to))
}

#[tactic(auto, unfolding(crate::specs::Inputs::user_move))]
fn user_move(line: &Object<'_>) -> Result<Moved, Name>
    ensures { result ≡ user_move (seen line.now.value) }
{
    let user = line.required(Name::User, TokenForm)?;
    let to = line.required(Name::To, UserStateForm)?;
    Ok(Moved::User(user, to))
}

#[tactic(auto, unfolding(crate::specs::Inputs::product_input))]
pub(crate) fn product_input(line: &Object<'_>) -> Result<Input, Name>
    ensures { result ≡ product_input (seen line.now.value) }
{
    let token = line.required(Name::Token, TokenForm)?;
    let product = line.required(Name::Product, TokenForm)?;
    let currency = line.required(Name::Currency, CurrencyForm)?;
    let funding = line.required(Name::Funding, FundingForm)?;
    let timeout = WholeForm(SHORTEST_TIMEOUT, LONGEST_TIMEOUT);
    let timeout_ms = line.optional_or(Name::TimeoutMs, timeout, DEFAULT_TIMEOUT)?;
    let hold = WholeForm(SHORTEST_HOLD, LONGEST_HOLD);
    let hold_ms = line.optional_or(Name::HoldMs, hold, DEFAULT_HOLD)?;
    Ok(Input::Product {
        token,
        product,
        currency,
        funding,
        timeout_ms,
        hold_ms,
    })
}

pub(crate) fn group_input(
    alloc: Global,
    line: &Object<'_>,
) -> Result<Result<Input, Name>, AllocError>
    ensures { IfOk result (λ said. said ≡ group_input (seen line.now.value)) }
{
    let mccs = line.mccs(alloc, Name::Mccs)?;
    Ok(group_of(line, mccs))
}

/// The group of a line whose field of codes holds these.
#[tactic(auto, unfolding(crate::specs::Inputs::group_input, iss_field::specs::Fields::required_field))]
fn group_of(line: &Object<'_>, mccs: Option<Mccs>) -> Result<Input, Name>
    requires { mccs ≡ option_and_then mccs_of (field name.Mccs (seen line.now.value)) }
    ensures { result ≡ group_input (seen line.now.value) }
{
    let token = line.required(Name::Token, TokenForm)?;
    let group = line.required(Name::Group, TokenForm)?;
    let mccs = mccs.ok_or(Name::Mccs)?;
    Ok(Input::Group { token, group, mccs })
}

#[tactic(auto, unfolding(crate::specs::Inputs::control_input))]
pub(crate) fn control_input(line: &Object<'_>) -> Result<Input, Name>
    ensures { result ≡ control_input (seen line.now.value) }
{
    let token = line.required(Name::Token, TokenForm)?;
    let control = line.required(Name::Control, TokenForm)?;
    let currency = line.required(Name::Currency, CurrencyForm)?;
    let window = line.required(Name::Window, WindowForm)?;
    let (amount_limit, usage_limit) = limits_said(currency, window, line)?;
    let association = association_said(line)?;
    let scope = scope_said(line)?;
    let offset = line.optional_or(Name::UtcOffset, OffsetForm, 0)?;
    let active = line.optional_or(Name::Active, FlagForm, true)?;
    Ok(Input::Control {
        token,
        control,
        currency,
        window,
        amount_limit,
        usage_limit,
        association,
        scope,
        offset,
        active,
    })
}

#[tactic(auto, unfolding(crate::specs::Inputs::limits_said))]
fn limits_said(
    currency: Currency,
    window: Window,
    line: &Object<'_>,
) -> Result<(Option<u64>, Option<u32>), Name>
    ensures { result ≡ limits_said currency window (seen line.now.value) }
{
    let counted = line.has(Name::UsageLimit);
    let amount_limit = line.required_unless(counted, Name::AmountLimit, LimitForm(currency))?;
    let usage = FormIf(counts_purchases(window), NumberForm(0, GREATEST_USAGE));
    let usage_limit = line.optional(Name::UsageLimit, usage)?;
    Ok((amount_limit, usage_limit))
}

/// Whether a control of that window may count purchases: one of single transactions has one of each.
fn counts_purchases(window: Window) -> bool
    ensures { result ≡ counts_purchases window }
{
    match window {
        Window::Transaction => false,
        Window::Day | Window::Week | Window::Month | Window::Lifetime => true,
    }
}

#[tactic(auto, unfolding(crate::specs::Inputs::association_said))]
fn association_said(line: &Object<'_>) -> Result<Association, Name>
    ensures { result ≡ association_said (seen line.now.value) }
{
    let user = line.optional(Name::User, TokenForm)?;
    let product = line.optional(Name::Product, FormIf(user.is_none(), TokenForm))?;
    Ok(association_named(user, product))
}

fn association_named(user: Option<Token>, product: Option<Token>) -> Association
    ensures { result ≡ association_named user product }
{
    match (user, product) {
        (Some(user), _) => Association::User(user),
        (None, Some(product)) => Association::Product(product),
        (None, None) => Association::Anybody,
    }
}

#[tactic(auto, unfolding(crate::specs::Inputs::scope_said))]
fn scope_said(line: &Object<'_>) -> Result<Scope, Name>
    ensures { result ≡ scope_said (seen line.now.value) }
{
    let mcc = line.optional(Name::Mcc, MccForm)?;
    let group = line.optional(Name::Group, FormIf(mcc.is_none(), TokenForm))?;
    let free = mcc.is_none() && group.is_none();
    let mid = line.optional(Name::Mid, FormIf(free, TokenForm))?;
    Ok(scope_named(mcc, group, mid))
}

fn scope_named(mcc: Option<u16>, group: Option<Token>, mid: Option<Token>) -> Scope
    ensures { result ≡ scope_named mcc group mid }
{
    match (mcc, group, mid) {
        (Some(mcc), _, _) => Scope::Mcc(mcc),
        (None, Some(group), _) => Scope::Group(group),
        (None, None, Some(mid)) => Scope::Mid(mid),
        (None, None, None) => Scope::All,
    }
}

#[tactic(auto, unfolding(crate::specs::Inputs::set_input))]
pub(crate) fn set_input(line: &Object<'_>) -> Result<Input, Name>
    ensures { result ≡ set_input (seen line.now.value) }
{
    let token = line.required(Name::Token, TokenForm)?;
    let set = line.required(Name::Set, TokenForm)?;
    let product = line.required(Name::Product, TokenForm)?;
    let currency = line.required(Name::Currency, CurrencyForm)?;
    let connection = line.optional_or(Name::Connection, FlagForm, false)?;
    let timeout = line.optional_or(Name::Timeout, FlagForm, false)?;
    let application = line.optional_or(Name::Application, FlagForm, false)?;
    let max = line.required(Name::Max, LimitForm(currency))?;
    let day_limit = line.required(Name::DayLimit, LimitForm(currency))?;
    let active = line.optional_or(Name::Active, FlagForm, true)?;
    Ok(Input::Set {
        token,
        set,
        product,
        currency,
        connection,
        timeout,
        application,
        max,
        day_limit,
        active,
    })
}

#[tactic(auto, unfolding(crate::specs::Inputs::switch_input))]
pub(crate) fn switch_input(line: &Object<'_>) -> Result<Input, Name>
    ensures { result ≡ switch_input (seen line.now.value) }
{
    let token = line.required(Name::Token, TokenForm)?;
    let product = line.required(Name::Product, TokenForm)?;
    let on = line.required(Name::On, FlagForm)?;
    Ok(Input::Switch { token, product, on })
}

/// The product of a card whose line names none.
fn default_product() -> Token
    ensures { result ≡ codes "default" }
{
    match Token::new(b"default") {
        Some(product) => product,
        None => unreachable!(),
    }
}
