//! Worked runs on devices: the checker computes what each writes, and when.
ghost use Rattle.std.specs.Prelude.{◌≡◌, ◌-◌, ◌∷◌, [], length, codes};
ghost use Rattle.iss_model.specs.declared.limits.TheConstants.{MOST_RECORDS};
ghost use Rattle.iss_model.specs.rules.Histories.{nothing_yet};
ghost use Rattle.iss_model.specs.texts.BalanceLines.{balance_lines};
ghost use Rattle.iss_model.specs.texts.GatewayTexts.{request_text};
ghost use Rattle.iss_model.specs.texts.AnswerLines.{http_fault_line};
ghost use Rattle.iss_model.specs.texts.DrillLines.{drill_line};
ghost use Rattle.iss_book_examples.specs.WorkedCalls.{cleared_in_parts};
ghost use Rattle.iss_model.specs.run.Runs.{dry_run, run_after};
ghost use Rattle.iss_model.specs.declared.decision.Judged.TheVariants.{New, Told};
ghost use Rattle.iss_model.specs.declared.decision.Answer.TheVariants.{Spent};
ghost use Rattle.iss_model.specs.run.Rooms.{free_in, free_turned, room_after};
ghost use Rattle.iss_book_examples.specs.WorkedRooms.{user_record, two_halves, second_half, byte_each, long_each, one_user_more, told_free, user_after};
ghost use Rattle.iss_book_examples.specs.WorkedRuns.{Writes, fresh_device, six_users, six_users_told, asked_device, request_again, funded_answer, late_answer, text_at, user_of, without_room, Reports, report_line, cleared_report, loads_of_two, loads_report, drill_of_three, line_of_three, first_call};

/// What runs on devices write. A record that doesn't fit is not made, and what waits is said again by the next run.
#[tactic(auto, unfolding(iss_model::specs::rules::Stepping::step, iss_model::specs::rules::Judging::judge, iss_model::specs::run::Runs::transcript_of, iss_model::specs::texts::Spelling::number_bytes, iss_model::specs::texts::Spelling::field_bytes, iss_model::specs::texts::Spelling::spelling, iss_model::specs::texts::Wordings::reply_line, iss_model::specs::texts::Wordings::reason_text, iss_model::specs::texts::GatewayTexts::request_text, iss_model::specs::texts::GatewayTexts::notice_text, iss_model::specs::texts::AnswerLines::answer_text, iss_model::specs::texts::AnswerLines::acked_line, iss_model::specs::texts::AnswerLines::time_line, crate::specs::WorkedTexts::digits))]
pub fn worked_runs()
    ensures six_users { Writes (fresh_device 0 75) six_users six_users_told }
    ensures repeated_user { Writes (run_after (fresh_device 0 75) six_users) (user_of "t1" "u1" ∷ []) (text_at 3 "{\"event\":\"t1\",\"reply\":\"done\"}" ∷ []) }
    ensures asked_again { Writes asked_device [] (request_again ∷ []) }
    ensures answered { Writes asked_device funded_answer (request_again ∷ text_at 5 "{\"event\":\"a1\",\"reply\":\"approved\"}" ∷ []) }
    ensures nothing_waits { Writes (run_after asked_device funded_answer) [] [] }
    ensures no_room_for_the_time { Writes (without_room asked_device) late_answer (request_again ∷ text_at 4 "{\"free\":0,\"need\":14,\"reply\":\"full\"}" ∷ []) }
{}

/// What fits a device in halves of 41 bytes. A second record of 20 bytes is put there by a turn if the first takes one byte in
/// an image. If it takes 21, the second fits neither half. The last record that there may be is made, and none after it.
#[tactic(auto, unfolding(iss_model::specs::texts::Spelling::number_bytes, iss_model::specs::texts::Spelling::field_bytes, iss_model::specs::texts::Spelling::spelling))]
pub fn worked_rooms()
    ensures empty { free_in (two_halves byte_each) [] ≡ 36 }
    ensures one { free_in (two_halves byte_each) (user_record ∷ []) ≡ 16 }
    ensures turned { free_turned (two_halves byte_each) (user_record ∷ []) ≡ 35 }
    ensures turns { room_after (two_halves byte_each) (user_record ∷ []) user_record ≡ second_half }
    ensures after_it { free_in second_half (user_record ∷ user_record ∷ []) ≡ 15 }
    ensures fits { one_user_more (two_halves byte_each) (user_record ∷ []) ≡ New user_record }
    ensures full { one_user_more (two_halves long_each) (user_record ∷ []) ≡ told_free 16 }
    ensures last { user_after (MOST_RECORDS - 1) ≡ New user_record }
    ensures spent { user_after MOST_RECORDS ≡ Told Spent }
{}

/// The size of a request, a drill's line, and the line for a fault of HTTP.
#[tactic(auto, unfolding(iss_model::specs::texts::GatewayTexts::request_text, iss_model::specs::texts::AnswerLines::http_fault_line, iss_model::specs::texts::DrillLines::drill_line, crate::specs::WorkedTexts::digits))]
pub fn worked_lines()
    ensures request_size { length (request_text 0 first_call) ≡ 195 }
    ensures http_fault { http_fault_line (codes "HEAD") ≡ report_line "{\"fault\":\"HEAD\",\"reply\":\"http\"}" }
    ensures drill { drill_line drill_of_three ≡ line_of_three }
{}

/// The report of balances: the accounts in order, and the counts.
#[tactic(auto, unfolding(iss_model::specs::rules::Stepping::step, iss_model::specs::rules::Judging::judge, iss_model::specs::run::Sayings::reaction, iss_model::specs::texts::BalanceLines::account_line, iss_model::specs::texts::BalanceLines::count_line, crate::specs::WorkedTexts::digits))]
pub fn worked_reports()
    ensures nothing { balance_lines nothing_yet ≡ report_line "{\"calls\":0,\"notices\":0,\"records\":0}" ∷ [] }
    ensures cleared { Reports cleared_in_parts cleared_report }
    ensures loads { balance_lines (run_after dry_run loads_of_two).history ≡ loads_report }
{}
