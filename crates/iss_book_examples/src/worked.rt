//! Worked scripts: the checker computes each of them from the rules of the book.
ghost use Rattle.std.specs.Prelude.{◌≡◌, pos, neg_ℤ, true, false, Some, None, codes, option_map, replicate};
ghost use Rattle.iss_model.specs.declared.currency.Currency.TheVariants.{Usd, Jpy, Kwd};
ghost use Rattle.iss_model.specs.declared.setting.Window.TheVariants.{Day, Week, Month, Lifetime};
ghost use Rattle.iss_model.specs.Currencies.{iso_number, currency_of};
ghost use Rattle.iss_model.specs.Amounts.{amount_text, amount_read, whole_amount_read, limit_read};
ghost use Rattle.iss_model.specs.Calendar.{window_at};
ghost use Rattle.iss_model.specs.texts.CallTokens.{call_uuid, uuid_text};
ghost use Rattle.iss_model.specs.rules.Settings.{default_product};
ghost use Rattle.iss_model.specs.rules.Reasons.{is_full};
ghost use Rattle.iss_model.specs.rules.Pieces.{taken_to_clear, taken_to_release};
ghost use Rattle.iss_book_examples.specs.WorkedParts.{three_parts, funded_by_all};
ghost use Rattle.iss_book_examples.specs.Scripts.{Plays, used_after};
ghost use Rattle.iss_book_examples.specs.WorkedTexts.{RequestLine, PartialRequestLine, IncrementRequestLine, VoidLine, StandInNoticeLine, CaptureNoticeLine, RefundNoticeLine, DoneEventLine, ApprovedEventLine, PartialEventLine, DeclinedByAControlLine, DeclinedMoveLine, LateAnswerLine, LatePartLine, TimedOutCallLine, AbandonedCallLine, UnknownCallLine, AcknowledgedLine, AcknowledgedBeforeLine, IdleLine, SpentLine, TimeLine};
ghost use Rattle.iss_book_examples.specs.WorkedPurchases.{purchase_of_all, purchase_of_more, repeated_purchase, changed_purchase, raised_reversed_cleared, refunded_once, before_expiry, after_expiry, cleared_after_expiry, states_of_a_card, loads_in_three_currencies, greatest_load};
ghost use Rattle.iss_book_examples.specs.WorkedControls.{limit_of_a_day, next_day, next_week, next_month, next_day_in_india, next_week_in_new_york, next_month_in_the_west, offset_that_is_fixed, lifetime, group_of_merchants, purchase_before_the_control, limit_of_a_transaction};
ghost use Rattle.iss_book_examples.specs.WorkedCalls.{funded_by_the_gateway, refused_by_the_gateway, open_call, refused_call, answer_in_time, answer_too_late, reversed_while_pending, cleared_in_parts, refund_of_too_much, cleared_for_less, cleared_the_next_day};
ghost use Rattle.iss_book_examples.specs.WorkedFundedParts.{funded_in_part, part_not_permitted, part_of_the_whole, part_in_another_currency, permission_is_of_the_contents, cleared_beyond_its_part};
ghost use Rattle.iss_book_examples.specs.WorkedStandIns.{stand_in, gateway_switched_off};
ghost use Rattle.iss_book_examples.specs.WorkedDay.{a_day};
ghost use Rattle.iss_book_examples.specs.WorkedDue.{clearing_of_a_pending_purchase, repeat_at_the_deadline, early_acknowledgement, two_timeouts_and_an_expiry, expired_call, raised_by_the_gateway};
ghost use Rattle.iss_book_examples.specs.WorkedSettings.{states_of_a_user, settings_declined, control_at_rest, use_given_back};
ghost use Rattle.iss_book_examples.specs.WorkedRefunds.{refund_of_a_stand_in, partly_released_stand_in, switched_off_without_a_set};

/// Each script sends just what its steps expect, and its balances, calls, notices and records stand then.
#[tactic(auto, unfolding(iss_model::specs::rules::Stepping::step, iss_model::specs::rules::Judging::judge, iss_model::specs::run::Sayings::reaction))]
pub fn worked_scripts()
    ensures purchase_of_all { Plays purchase_of_all }
    ensures purchase_of_more { Plays purchase_of_more }
    ensures repeated_purchase { Plays repeated_purchase }
    ensures changed_purchase { Plays changed_purchase }
    ensures raised_reversed_cleared { Plays raised_reversed_cleared }
    ensures refunded_once { Plays refunded_once }
    ensures before_expiry { Plays before_expiry }
    ensures after_expiry { Plays after_expiry }
    ensures cleared_after_expiry { Plays cleared_after_expiry }
    ensures states_of_a_card { Plays states_of_a_card }
    ensures loads_in_three_currencies { Plays loads_in_three_currencies }
    ensures greatest_load { Plays greatest_load }
    ensures limit_of_a_day { Plays limit_of_a_day }
    ensures next_day { Plays next_day }
    ensures next_week { Plays next_week }
    ensures next_month { Plays next_month }
    ensures next_day_in_india { Plays next_day_in_india }
    ensures next_week_in_new_york { Plays next_week_in_new_york }
    ensures next_month_in_the_west { Plays next_month_in_the_west }
    ensures offset_that_is_fixed { Plays offset_that_is_fixed }
    ensures lifetime { Plays lifetime }
    ensures group_of_merchants { Plays group_of_merchants }
    ensures purchase_before_the_control { Plays purchase_before_the_control }
    ensures limit_of_a_transaction { Plays limit_of_a_transaction }
    ensures funded_by_the_gateway { Plays funded_by_the_gateway }
    ensures refused_by_the_gateway { Plays refused_by_the_gateway }
    ensures open_call { Plays open_call }
    ensures refused_call { Plays refused_call }
    ensures answer_in_time { Plays answer_in_time }
    ensures answer_too_late { Plays answer_too_late }
    ensures reversed_while_pending { Plays reversed_while_pending }
    ensures cleared_in_parts { Plays cleared_in_parts }
    ensures refund_of_too_much { Plays refund_of_too_much }
    ensures cleared_for_less { Plays cleared_for_less }
    ensures cleared_the_next_day { Plays cleared_the_next_day }
    ensures funded_in_part { Plays funded_in_part }
    ensures part_not_permitted { Plays part_not_permitted }
    ensures part_of_the_whole { Plays part_of_the_whole }
    ensures part_in_another_currency { Plays part_in_another_currency }
    ensures permission_is_of_the_contents { Plays permission_is_of_the_contents }
    ensures cleared_beyond_its_part { Plays cleared_beyond_its_part }
    ensures stand_in { Plays stand_in }
    ensures gateway_switched_off { Plays gateway_switched_off }
    ensures a_day { Plays a_day }
    ensures clearing_of_a_pending_purchase { Plays clearing_of_a_pending_purchase }
    ensures repeat_at_the_deadline { Plays repeat_at_the_deadline }
    ensures early_acknowledgement { Plays early_acknowledgement }
    ensures two_timeouts_and_an_expiry { Plays two_timeouts_and_an_expiry }
    ensures expired_call { Plays expired_call }
    ensures raised_by_the_gateway { Plays raised_by_the_gateway }
    ensures states_of_a_user { Plays states_of_a_user }
    ensures settings_declined { Plays settings_declined }
    ensures control_at_rest { Plays control_at_rest }
    ensures use_given_back { Plays use_given_back }
    ensures refund_of_a_stand_in { Plays refund_of_a_stand_in }
    ensures partly_released_stand_in { Plays partly_released_stand_in }
    ensures switched_off_without_a_set { Plays switched_off_without_a_set }
{}

/// How amounts are read and written, by currency.
#[tactic(auto, unfolding(crate::specs::WorkedTexts::digits))]
pub fn worked_amounts()
    ensures below_one { amount_text (neg_ℤ (pos 5)) Usd ≡ codes "-0.05" }
    ensures three_decimals { amount_text (pos 1234) Kwd ≡ codes "1.234" }
    ensures no_decimals { amount_text (pos 0) Jpy ≡ codes "0" }
    ensures yen { amount_read (codes "1500") Jpy ≡ Some 1500 }
    ensures yen_have_no_decimals { amount_read (codes "1500.00") Jpy ≡ None }
    ensures dinars { amount_read (codes "1.234") Kwd ≡ Some 1234 }
    ensures whole_dollars { whole_amount_read 10 Usd ≡ Some 1000 }
    ensures whole_yen { whole_amount_read 10 Jpy ≡ Some 10 }
    ensures whole_dinars { whole_amount_read 10 Kwd ≡ Some 10000 }
    ensures one_decimal { amount_read (codes "10.5") Usd ≡ None }
    ensures nothing { amount_read (codes "0.00") Usd ≡ None }
    ensures zero_in_front { amount_read (codes "010.00") Usd ≡ None }
    ensures too_much { amount_read (codes "10000000.01") Usd ≡ None }
    ensures greatest { amount_read (codes "10000000.00") Usd ≡ Some 1000000000 }
    ensures limit_of_nothing { limit_read (codes "0.00") Usd ≡ Some 0 }
    ensures greatest_limit { limit_read (codes "10000000000.00") Usd ≡ Some 1000000000000 }
    ensures too_great_a_limit { limit_read (codes "10000000000.01") Usd ≡ None }
    ensures numeric_code { option_map iso_number (currency_of (codes "AUD")) ≡ Some 36 }
{}

/// The order in which a clearing and a release take the parts of what is held. The gateway has 12 of 20, the programme 5,
/// and the user's own are 3.
pub fn worked_parts()
    ensures cleared_of_the_gateway { taken_to_clear funded_by_all 12 ≡ three_parts 12 0 0 }
    ensures cleared_of_the_programme { taken_to_clear funded_by_all 16 ≡ three_parts 12 4 0 }
    ensures cleared_of_the_user { taken_to_clear funded_by_all 19 ≡ three_parts 12 5 2 }
    ensures cleared_of_all { taken_to_clear funded_by_all 21 ≡ funded_by_all }
    ensures released_of_the_programme { taken_to_release funded_by_all 5 ≡ three_parts 0 5 0 }
    ensures released_of_the_gateway { taken_to_release funded_by_all 16 ≡ three_parts 11 5 0 }
    ensures released_of_the_user { taken_to_release funded_by_all 19 ≡ three_parts 12 5 2 }
    ensures released_of_all { taken_to_release funded_by_all 21 ≡ funded_by_all }
{}

/// There may be 256 products, the built-in one among them.
pub fn worked_limit()
    ensures one_fits { is_full (replicate 255 default_product) ≡ false }
    ensures none_fits { is_full (replicate 256 default_product) ≡ true }
{}

/// The windows of stamps around the borders of days, weeks and months, in UTC and at offsets in minutes.
pub fn worked_windows()
    ensures first_month { window_at Month 0 (pos 0) ≡ pos 23641 }
    ensures last_of_a_week { window_at Week 259199999 (pos 0) ≡ pos 0 }
    ensures first_of_a_week { window_at Week 259200000 (pos 0) ≡ pos 1 }
    ensures last_of_a_day { window_at Day 86399999 (pos 0) ≡ pos 0 }
    ensures first_of_a_day { window_at Day 86400000 (pos 0) ≡ pos 1 }
    ensures last_of_a_month { window_at Month 2678399999 (pos 0) ≡ pos 23641 }
    ensures first_of_a_month { window_at Month 2678400000 (pos 0) ≡ pos 23642 }
    ensures day_before_1970 { window_at Day 0 (neg_ℤ (pos 300)) ≡ neg_ℤ (pos 1) }
    ensures month_before_1970 { window_at Month 0 (neg_ℤ (pos 300)) ≡ pos 23640 }
    ensures last_of_a_day_in_india { window_at Day 66599999 (pos 330) ≡ pos 0 }
    ensures first_of_a_day_in_india { window_at Day 66600000 (pos 330) ≡ pos 1 }
    ensures last_of_a_week_in_new_york { window_at Week 277199999 (neg_ℤ (pos 300)) ≡ pos 0 }
    ensures first_of_a_week_in_new_york { window_at Week 277200000 (neg_ℤ (pos 300)) ≡ pos 1 }
    ensures last_of_a_month_in_the_west { window_at Month 2721599999 (neg_ℤ (pos 720)) ≡ pos 23641 }
    ensures first_of_a_month_in_the_west { window_at Month 2721600000 (neg_ℤ (pos 720)) ≡ pos 23642 }
    ensures leap_day { window_at Month 951782400000 (pos 0) ≡ pos 24002 }
    ensures day_after_a_leap_day { window_at Month 951868800000 (pos 0) ≡ pos 24003 }
    ensures no_leap_day_in_2100 { window_at Month 4107542400000 (pos 0) ≡ pos 25203 }
    ensures greatest_stamp { window_at Month 253370764799999 (pos 0) ≡ pos 119988 }
    ensures lifetime { window_at Lifetime 253370764799999 (pos 840) ≡ pos 0 }
{}

/// What goes out, as text.
#[tactic(auto, unfolding(iss_model::specs::texts::Wordings::reply_line, iss_model::specs::texts::Wordings::reason_text, iss_model::specs::texts::GatewayTexts::request_text, iss_model::specs::texts::GatewayTexts::notice_text, iss_model::specs::texts::AnswerLines::answer_text, iss_model::specs::texts::AnswerLines::acked_line, iss_model::specs::texts::AnswerLines::time_line, crate::specs::WorkedTexts::digits))]
pub fn worked_texts()
    ensures call_token { uuid_text (call_uuid 7 1) ≡ codes "00000000-0007-8000-8000-000000000001" }
    ensures request { RequestLine }
    ensures partial_request { PartialRequestLine }
    ensures increment_request { IncrementRequestLine }
    ensures void { VoidLine }
    ensures stand_in_notice { StandInNoticeLine }
    ensures capture_notice { CaptureNoticeLine }
    ensures refund_notice { RefundNoticeLine }
    ensures done_event { DoneEventLine }
    ensures approved_event { ApprovedEventLine }
    ensures partial_event { PartialEventLine }
    ensures declined_by_a_control { DeclinedByAControlLine }
    ensures declined_move { DeclinedMoveLine }
    ensures late_answer { LateAnswerLine }
    ensures late_part { LatePartLine }
    ensures timed_out_call { TimedOutCallLine }
    ensures abandoned_call { AbandonedCallLine }
    ensures unknown_call { UnknownCallLine }
    ensures acknowledged { AcknowledgedLine }
    ensures acknowledged_before { AcknowledgedBeforeLine }
    ensures idle { IdleLine }
    ensures spent { SpentLine }
    ensures time { TimeLine }
{}

/// What a control has counted after a day of purchases, and after a part with an open call.
#[tactic(auto, unfolding(iss_model::specs::rules::Stepping::step, iss_model::specs::rules::Judging::judge, iss_model::specs::run::Sayings::reaction))]
pub fn worked_use()
    ensures use_of_a_day { option_map (λ used. used.amount) (used_after a_day (codes "v1")) ≡ Some (pos 14170) }
    ensures use_of_a_part { option_map (λ used. used.amount) (used_after funded_in_part (codes "v1")) ≡ Some (pos 10000) }
{}
