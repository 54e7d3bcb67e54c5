//! Worked scripts of one point each: turn the rule that one shows, and the checker refuses it.
ghost use Rattle.std.specs.Prelude.{pos, ◌≡◌, Some, None, codes};
ghost use Rattle.iss_model.specs.declared.currency.Currency.TheVariants.{Usd};
ghost use Rattle.iss_model.specs.declared.setting.Window.TheVariants as window;
ghost use Rattle.iss_model.specs.declared.setting.Association.TheVariants as association;
ghost use Rattle.iss_model.specs.declared.setting.Scope.TheVariants as scope;
ghost use Rattle.iss_model.specs.declared.setting.CardState.TheVariants as card_state;
ghost use Rattle.iss_model.specs.declared.setting.UserState.TheVariants as user_state;
ghost use Rattle.iss_model.specs.declared.decision.Reason.TheVariants as reason;
ghost use Rattle.iss_model.specs.rules.Reasons.{product_reason, group_reason, control_reason, set_reason};
ghost use Rattle.iss_model.specs.texts.Wordings.{reason_text};
ghost use Rattle.iss_book_examples.specs.Scripts.{Plays};
ghost use Rattle.iss_book_examples.specs.WorkedReasons.{purchase_with_every_reason, card_with_every_reason, control_of_unknown_things, events_in_another_currency, declined_increments, facts_with};
ghost use Rattle.iss_book_examples.specs.WorkedCounting.{control_in_another_currency, control_of_a_user, control_of_a_product, control_of_a_category_and_a_merchant, use_of_two_users, increment_under_a_usage_limit, control_put_again, control_that_is_fixed};
ghost use Rattle.iss_book_examples.specs.WorkedSets.{set_that_is_fixed, set_put_again, set_of_another_product, set_for_timeouts, stand_ins_of_two_users, stand_in_after_midnight};
ghost use Rattle.iss_book_examples.specs.WorkedUse.{refused_after_midnight, reversed_on_the_day_and_after, increment_refused_the_next_day, use_of_an_abandoned_call, excess_on_its_own_day};
ghost use Rattle.iss_book_examples.specs.WorkedOrder.{earlier_deadline_first, ended_before_its_expiry, ends_of, refund_beside_a_held_part, conflict_after_another_record, switch_turned_off_again, card_activated_later, taken_up_again};

/// Which reason comes first, and that each test is made.
#[tactic(auto, unfolding(iss_model::specs::rules::Stepping::step, iss_model::specs::rules::Judging::judge, iss_model::specs::run::Sayings::reaction))]
pub fn worked_reasons()
    ensures purchase_with_every_reason { Plays purchase_with_every_reason }
    ensures card_with_every_reason { Plays card_with_every_reason }
    ensures control_of_unknown_things { Plays control_of_unknown_things }
    ensures events_in_another_currency { Plays events_in_another_currency }
    ensures declined_increments { Plays declined_increments }
{}

/// There may be 256 products, groups, controls and sets each. One that stands may be put again.
pub fn worked_full_lists()
    ensures last_product { product_reason (facts_with 255) (codes "h") ≡ None }
    ensures one_product_more { product_reason (facts_with 256) (codes "h") ≡ Some reason.Limit }
    ensures product_that_stands { product_reason (facts_with 256) (codes "default") ≡ Some reason.Exists }
    ensures last_group { group_reason (facts_with 255) (codes "fuel") ≡ None }
    ensures one_group_more { group_reason (facts_with 256) (codes "fuel") ≡ Some reason.Limit }
    ensures group_that_stands { group_reason (facts_with 256) (codes "food") ≡ Some reason.Exists }
    ensures last_control { control_reason (facts_with 255) (codes "v2") Usd window.Day association.Anybody scope.All (pos 0) ≡ None }
    ensures one_control_more { control_reason (facts_with 256) (codes "v2") Usd window.Day association.Anybody scope.All (pos 0) ≡ Some reason.Limit }
    ensures control_that_stands { control_reason (facts_with 256) (codes "v1") Usd window.Day association.Anybody scope.All (pos 0) ≡ None }
    ensures last_set { set_reason (facts_with 255) (codes "s2") (codes "default") Usd ≡ None }
    ensures one_set_more { set_reason (facts_with 256) (codes "s2") (codes "default") Usd ≡ Some reason.Limit }
    ensures set_that_stands { set_reason (facts_with 256) (codes "s1") (codes "default") Usd ≡ None }
{}

/// What a control counts, keeps, and takes over when it is put again.
#[tactic(auto, unfolding(iss_model::specs::rules::Stepping::step, iss_model::specs::rules::Judging::judge, iss_model::specs::run::Sayings::reaction))]
pub fn worked_counting()
    ensures control_in_another_currency { Plays control_in_another_currency }
    ensures control_of_a_user { Plays control_of_a_user }
    ensures control_of_a_product { Plays control_of_a_product }
    ensures control_of_a_category_and_a_merchant { Plays control_of_a_category_and_a_merchant }
    ensures use_of_two_users { Plays use_of_two_users }
    ensures increment_under_a_usage_limit { Plays increment_under_a_usage_limit }
    ensures control_put_again { Plays control_put_again }
    ensures control_that_is_fixed { Plays control_that_is_fixed }
    ensures refused_after_midnight { Plays refused_after_midnight }
    ensures reversed_on_the_day_and_after { Plays reversed_on_the_day_and_after }
    ensures increment_refused_the_next_day { Plays increment_refused_the_next_day }
    ensures use_of_an_abandoned_call { Plays use_of_an_abandoned_call }
    ensures excess_on_its_own_day { Plays excess_on_its_own_day }
{}

/// Which set stands in, up to what, and on which day.
#[tactic(auto, unfolding(iss_model::specs::rules::Stepping::step, iss_model::specs::rules::Judging::judge, iss_model::specs::run::Sayings::reaction))]
pub fn worked_sets()
    ensures set_that_is_fixed { Plays set_that_is_fixed }
    ensures set_put_again { Plays set_put_again }
    ensures set_of_another_product { Plays set_of_another_product }
    ensures set_for_timeouts { Plays set_for_timeouts }
    ensures stand_ins_of_two_users { Plays stand_ins_of_two_users }
    ensures stand_in_after_midnight { Plays stand_in_after_midnight }
{}

/// What comes first or last, and what a refund may not take.
#[tactic(auto, unfolding(iss_model::specs::rules::Stepping::step, iss_model::specs::rules::Judging::judge, iss_model::specs::run::Sayings::reaction))]
pub fn worked_order()
    ensures earlier_deadline_first { Plays earlier_deadline_first }
    ensures ended_before_its_expiry { Plays ended_before_its_expiry }
    ensures ends_once { ends_of ended_before_its_expiry ≡ 1 }
    ensures refund_beside_a_held_part { Plays refund_beside_a_held_part }
    ensures conflict_after_another_record { Plays conflict_after_another_record }
    ensures switch_turned_off_again { Plays switch_turned_off_again }
    ensures card_activated_later { Plays card_activated_later }
    ensures taken_up_again { Plays taken_up_again }
{}

/// The text of each reason.
#[tactic(auto, unfolding(iss_model::specs::texts::Wordings::reason_text))]
pub fn worked_reason_texts()
    ensures exists { reason_text reason.Exists ≡ codes "EXISTS" }
    ensures limit { reason_text reason.Limit ≡ codes "LIMIT" }
    ensures user_unknown { reason_text reason.UserUnknown ≡ codes "USER_UNKNOWN" }
    ensures product_unknown { reason_text reason.ProductUnknown ≡ codes "PRODUCT_UNKNOWN" }
    ensures card_unknown { reason_text reason.CardUnknown ≡ codes "CARD_UNKNOWN" }
    ensures group_unknown { reason_text reason.GroupUnknown ≡ codes "GROUP_UNKNOWN" }
    ensures control_fixed { reason_text reason.ControlFixed ≡ codes "CONTROL_FIXED" }
    ensures set_fixed { reason_text reason.SetFixed ≡ codes "SET_FIXED" }
    ensures activation { reason_text (reason.MoveCard card_state.Unactivated card_state.Suspended) ≡ codes "MOVE:UNACTIVATED:SUSPENDED" }
    ensures card_move { reason_text (reason.MoveCard card_state.Terminated card_state.Active) ≡ codes "MOVE:TERMINATED:ACTIVE" }
    ensures user_move { reason_text (reason.MoveUser user_state.Closed user_state.Suspended) ≡ codes "MOVE:CLOSED:SUSPENDED" }
    ensures user_again { reason_text (reason.MoveUser user_state.Active user_state.Active) ≡ codes "MOVE:ACTIVE:ACTIVE" }
    ensures state_of_a_card { reason_text reason.CardState ≡ codes "CARD_STATE" }
    ensures state_of_a_user { reason_text reason.UserState ≡ codes "USER_STATE" }
    ensures currency { reason_text reason.Currency ≡ codes "CURRENCY" }
    ensures txn_unknown { reason_text reason.TxnUnknown ≡ codes "TXN_UNKNOWN" }
    ensures txn_closed { reason_text reason.TxnClosed ≡ codes "TXN_CLOSED" }
    ensures txn_pending { reason_text reason.TxnPending ≡ codes "TXN_PENDING" }
    ensures control { reason_text (reason.Control (codes "v1")) ≡ codes "CONTROL:v1" }
    ensures insufficient_funds { reason_text reason.InsufficientFunds ≡ codes "INSUFFICIENT_FUNDS" }
    ensures gateway_declined { reason_text reason.GatewayDeclined ≡ codes "GATEWAY_DECLINED" }
    ensures gateway_connection { reason_text reason.GatewayConnection ≡ codes "GATEWAY_CONNECTION" }
    ensures gateway_timeout { reason_text reason.GatewayTimeout ≡ codes "GATEWAY_TIMEOUT" }
    ensures gateway_application { reason_text reason.GatewayApplication ≡ codes "GATEWAY_APPLICATION" }
    ensures gateway_switch { reason_text reason.GatewaySwitch ≡ codes "GATEWAY_SWITCH" }
    ensures stand_in_limit { reason_text (reason.StandInLimit (codes "s1")) ≡ codes "STAND_IN_LIMIT:s1" }
    ensures reversed { reason_text reason.Reversed ≡ codes "REVERSED" }
    ensures cleared { reason_text reason.Cleared ≡ codes "CLEARED" }
    ensures expired { reason_text reason.Expired ≡ codes "EXPIRED" }
    ensures refund_over { reason_text reason.RefundOver ≡ codes "REFUND_OVER" }
{}
