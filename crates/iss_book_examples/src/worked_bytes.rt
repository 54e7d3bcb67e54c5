//! Worked records: the checker computes their bytes, and reads them again.
ghost use Rattle.std.specs.Prelude.{pos, neg_ℤ, ◌∷◌, ◌++◌, [], take, drop};
ghost use Rattle.iss_model.specs.declared.input.Input.TheVariants.{Ack, Time};
ghost use Rattle.iss_model.specs.declared.input.Outcome.TheVariants.{Connection};
ghost use Rattle.iss_model.specs.declared.currency.Currency.TheVariants.{Usd, Eur};
ghost use Rattle.iss_model.specs.declared.setting.Window.TheVariants.{Week};
ghost use Rattle.iss_book_examples.specs.Scripts.{new_user, card_of, gateway_product, connection_set, switch_on, purchase, partial_purchase, load, increment, reversal, final_clearing, refund, amount_control, local_control, gateway_answer, part_answer};
ghost use Rattle.iss_model.specs.texts.Spelling.{spelling};
ghost use Rattle.iss_book_examples.specs.WorkedSpellings.{IsSpelled, IsNone, recorded, user_spelled, full_control, control_of_nothing, count_of_one, group_of_two, activation, closing};

/// The bytes of one record of each kind, and bytes that are no record's.
#[tactic(auto, unfolding(iss_model::specs::texts::Spelling::number_bytes, iss_model::specs::texts::Spelling::field_bytes, iss_model::specs::texts::Spelling::spelling, iss_codec::specs::Taking::take_byte, iss_codec::specs::Taking::take_bytes, iss_codec::specs::Taking::take_number, iss_codec::specs::Taking::take_formed, iss_codec::specs::Taking::take_token, iss_codec::specs::Taking::take_numbered, iss_codec::specs::Taking::take_currency, iss_codec::specs::Taking::take_optional, iss_codec::specs::Taking::take_codes, iss_codec::specs::Taking::take_mccs, iss_codec::specs::Taking::take_moved_card, iss_codec::specs::Taking::take_moved_user, iss_codec::specs::Taking::take_moved, iss_codec::specs::Taking::take_named, iss_codec::specs::Taking::take_association, iss_codec::specs::Taking::take_mcc_scope, iss_codec::specs::Taking::take_scope, iss_codec::specs::Taking::take_offset, iss_codec::specs::TakingRecords::take_user, iss_codec::specs::TakingRecords::take_card, iss_codec::specs::TakingRecords::take_move, iss_codec::specs::TakingRecords::take_product, iss_codec::specs::TakingRecords::take_group, iss_codec::specs::TakingRecords::take_limits, iss_codec::specs::TakingRecords::take_control, iss_codec::specs::TakingRecords::take_set, iss_codec::specs::TakingRecords::take_switch, iss_codec::specs::TakingRecords::take_operation, iss_codec::specs::TakingRecords::take_authorization, iss_codec::specs::TakingRecords::take_clearing, iss_codec::specs::TakingRecords::take_answer, iss_codec::specs::TakingRecords::take_part, iss_codec::specs::TakingRecords::take_ack, iss_codec::specs::TakingRecords::take_fields, iss_codec::specs::TakingRecords::take_record, iss_codec::specs::TakingRecords::record_spelled))]
pub fn worked_spellings()
    ensures user { IsSpelled 0 new_user "010000000000000000027431027531" }
    ensures card { IsSpelled 0 (card_of "g") "020000000000000000027432026331027531016701" }
    ensures move_of_a_card { IsSpelled 0 activation "030000000000000000026d310102633102" }
    ensures move_of_a_user { IsSpelled 0 closing "030000000000000000026d320202753105" }
    ensures product { IsSpelled 0 gateway_product "040000000000000000027031016703480200000bb8240c8400" }
    ensures group { IsSpelled 0 (group_of_two 5411 5812) "05000000000000000002743304666f6f640002152316b4" }
    ensures control { IsSpelled 0 full_control "06000000000000000002743402763103d2020100000000000001f401000000030102753101152301" }
    ensures amount_control { IsSpelled 0 (amount_control Week 10000) "06000000000000000002743402763103480301000000000000271000000001" }
    ensures control_ahead { IsSpelled 0 (local_control Week (pos 330)) "12000000000000000002743402763103480301000000000000271000000001014a" }
    ensures control_behind { IsSpelled 0 (local_control Week (neg_ℤ (pos 300))) "12000000000000000002743402763103480301000000000000271000000001fed4" }
    ensures set { IsSpelled 0 connection_set "070000000000000000027435027331016703480100000000000000002710000000000000271001" }
    ensures switch { IsSpelled 0 switch_on "080000000000000000027436016701" }
    ensures load { IsSpelled 0 (load "l1" Eur 6000) "090000000000000000026c3102753103d20000000000001770" }
    ensures purchase { IsSpelled 1000 (purchase "a1" 6000) "0a00000000000003e8026131026331034800000000000017701523026d31" }
    ensures partial { IsSpelled 1000 (partial_purchase "a1" 6000) "1400000000000003e8026131026331034800000000000017701523026d31" }
    ensures increment { IsSpelled 0 (increment "i1" "a1" 100) "0b000000000000000002693102613103480000000000000064" }
    ensures reversal { IsSpelled 0 (reversal "r1" "a1" 100) "0c000000000000000002723102613103480000000000000064" }
    ensures clearing { IsSpelled 0 (final_clearing "k1" "a1" 3820) "0d0000000000000000026b3102613103480000000000000eec01" }
    ensures refund { IsSpelled 0 (refund "f1" "a1" 1000000000) "0e00000000000000000266310261310348000000003b9aca00" }
    ensures answer { IsSpelled 2000 (gateway_answer 1 Connection) "0f00000000000007d00000000103" }
    ensures answer_of_a_part { IsSpelled 2000 (part_answer 1 Usd 4000) "1300000000000007d00000000103480000000000000fa0" }
    ensures acknowledgement { IsSpelled 0 (Ack 4294967295) "100000000000000000ffffffff" }
    ensures time { IsSpelled 253370764799999 Time "110000e6707a6eafff" }
    ensures one_more { IsNone (user_spelled ++ 0 ∷ []) }
    ensures one_less { IsNone (take 14 user_spelled) }
    ensures nothing { IsNone ([]) }
    ensures no_kind { IsNone (0 ∷ drop 1 user_spelled) }
    ensures kind_of_none { IsNone (21 ∷ drop 1 user_spelled) }
    ensures stamp_past_the_last { IsNone (spelling (recorded 253370764800000 Time)) }
    ensures amount_of_nothing { IsNone (spelling (recorded 0 (load "l1" Eur 0))) }
    ensures empty_token { IsNone (spelling (recorded 0 (load "" Eur 1))) }
    ensures blank_in_a_token { IsNone (spelling (recorded 0 (load "l 1" Eur 1))) }
    // Two bytes of 0 after a control in UTC, and an offset of 14 hours and a minute.
    ensures offset_of_nothing { IsNone (18 ∷ drop 1 (spelling (recorded 0 (amount_control Week 10000)) ++ 0 ∷ 0 ∷ [])) }
    ensures offset_too_far { IsNone (18 ∷ drop 1 (spelling (recorded 0 (amount_control Week 10000)) ++ 3 ∷ 73 ∷ [])) }
    ensures control_of_nothing { IsNone (spelling (recorded 0 control_of_nothing)) }
    ensures count_of_one { IsNone (spelling (recorded 0 count_of_one)) }
    ensures group_that_falls { IsNone (spelling (recorded 0 (group_of_two 5812 5411))) }
    ensures code_twice { IsNone (spelling (recorded 0 (group_of_two 5411 5411))) }
    ensures code_of_five_digits { IsNone (spelling (recorded 0 (group_of_two 5411 10000))) }
    ensures call_0 { IsNone (spelling (recorded 0 (gateway_answer 0 Connection))) }
    ensures part_of_nothing { IsNone (spelling (recorded 0 (part_answer 1 Usd 0))) }
    // An answer of a part, as the kind of those that have no amount.
    ensures part_by_number { IsNone (take 13 (spelling (recorded 0 (gateway_answer 1 Connection))) ++ 5 ∷ []) }
{}
