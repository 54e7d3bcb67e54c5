//! Worked sessions: the checker computes what each of them sends and closes, at which levels, and how many records then stand.
ghost use Rattle.std.specs.Prelude.{◌≡◌};
ghost use Rattle.iss_model.specs.declared.limits.TheConstants.{LAST_STAMP};
ghost use Rattle.iss_session.specs.Happenings.{session_after};
ghost use Rattle.iss_session_examples.specs.Program.{program_readers};
ghost use Rattle.iss_session_examples.specs.Telling.{IsPlayed};
ghost use Rattle.iss_session_examples.specs.WorkedClients.{three_pieces, chunked_body, long_body, another_path, space_before_the_head, three_clients, torn_response, full_device, half_a_request};
ghost use Rattle.iss_session_examples.specs.WorkedGateways.{two_in_flight, unreachable_gateway, stopped_in_flight, asked_again, answer_in_pieces, funded_in_part, part_not_permitted, too_late, bytes_behind_a_request, pending_and_conflict, notice_refused, notice_acknowledged, garbled_answer, answer_cut_short, waiting_client_fails};

/// Sessions with clients alone: requests in pieces, faults of HTTP and of lines, repeats, a torn response, a full device.
#[tactic(auto, using(crate::proofs::Hopeless::hopeless_space), unfolding(iss_model::specs::rules::Stepping::step, iss_model::specs::rules::Judging::judge, iss_model::specs::texts::Spelling::number_bytes, iss_model::specs::texts::Spelling::field_bytes, iss_model::specs::texts::Spelling::spelling, iss_model::specs::texts::Wordings::reply_line, iss_model::specs::texts::Wordings::reason_text, iss_model::specs::texts::Wordings::fault_line, iss_model::specs::texts::GatewayTexts::request_text, iss_model::specs::texts::GatewayTexts::notice_text, iss_model::specs::texts::AnswerLines::answer_text, iss_model::specs::texts::AnswerLines::http_fault_line, iss_http::specs::Requests::request, iss_http::specs::Requests::request_headed, iss_http::specs::Heads::request_head, iss_http::specs::Heads::response_head, iss_http::specs::Answers::answer_read, iss_http::specs::Answers::answer_headed, iss_http::specs::Lengths::content_length, iss_http::specs::Lengths::length_of, iss_http::specs::Messages::respond, iss_http::specs::Messages::ask, iss_session::specs::Judgements::judged_input, crate::specs::Unfolded::digits, crate::specs::Unfolded::is_utf8, crate::specs::Unfolded::chars, crate::specs::Unfolded::encode, crate::specs::Unfolded::items, crate::specs::Unfolded::members, crate::specs::Unfolded::value, crate::specs::Unfolded::lex, crate::specs::Unfolded::punctuate, crate::specs::Unfolded::code_unit, crate::specs::Unfolded::short_escape, crate::specs::Unfolded::content, crate::specs::Unfolded::after_number, crate::specs::Unfolded::word, crate::specs::Unfolded::number_of, crate::specs::Unfolded::by_index, crate::specs::Unfolded::is_token_byte, crate::specs::Unfolded::trim_ows, iss_field::specs::Fields::field, iss_field::specs::Fields::required_field, iss_field::specs::Fields::required_field_unless, iss_field::specs::Fields::optional_field, iss_field::specs::Fields::optional_field_or, iss_field::specs::Names::name_text, iss_field::specs::Objects::object_of, iss_field::specs::Values::token_of, iss_field::specs::Values::currency_value, iss_field::specs::Values::amount_of, iss_field::specs::Values::mcc_of_text, iss_field::specs::Values::mcc_of, iss_event::specs::Kinds::kind_of_text, iss_event::specs::Kinds::kind_of, iss_event::specs::FormLines::form_text, iss_event::specs::Readings::opened_object, iss_event::specs::Readings::opened_line, iss_event::specs::Readings::said_line, iss_event::specs::Readings::line_read, iss_event::specs::Inputs::user_input, iss_event::specs::Inputs::authorization_input, iss_jit::specs::Outcomes::json_of, iss_jit::specs::Outcomes::uuid_of, iss_jit::specs::Outcomes::amount_echoed, iss_jit::specs::Outcomes::has_token, iss_jit::specs::Outcomes::amount_said, iss_jit::specs::Outcomes::outcome_of_value, iss_jit::specs::Outcomes::outcome_of))]
pub fn sessions_with_clients()
    ensures three_pieces { IsPlayed three_pieces }
    ensures chunked_body { IsPlayed chunked_body }
    ensures long_body { IsPlayed long_body }
    ensures another_path { IsPlayed another_path }
    ensures space_before_the_head { IsPlayed space_before_the_head }
    ensures three_clients { IsPlayed three_clients }
    ensures torn_response { IsPlayed torn_response }
    ensures full_device { IsPlayed full_device }
    ensures half_a_request { IsPlayed half_a_request }
{}

/// Sessions with the gateway: calls in flight, a gateway that fails, a run that takes up what another left, notices.
#[tactic(auto, unfolding(iss_model::specs::rules::Stepping::step, iss_model::specs::rules::Judging::judge, iss_model::specs::texts::Spelling::number_bytes, iss_model::specs::texts::Spelling::field_bytes, iss_model::specs::texts::Spelling::spelling, iss_model::specs::texts::Wordings::reply_line, iss_model::specs::texts::Wordings::reason_text, iss_model::specs::texts::Wordings::fault_line, iss_model::specs::texts::GatewayTexts::request_text, iss_model::specs::texts::GatewayTexts::notice_text, iss_model::specs::texts::AnswerLines::answer_text, iss_model::specs::texts::AnswerLines::http_fault_line, iss_http::specs::Requests::request, iss_http::specs::Requests::request_headed, iss_http::specs::Heads::request_head, iss_http::specs::Heads::response_head, iss_http::specs::Answers::answer_read, iss_http::specs::Answers::answer_headed, iss_http::specs::Lengths::content_length, iss_http::specs::Lengths::length_of, iss_http::specs::Messages::respond, iss_http::specs::Messages::ask, iss_session::specs::Judgements::judged_input, crate::specs::Unfolded::digits, crate::specs::Unfolded::is_utf8, crate::specs::Unfolded::chars, crate::specs::Unfolded::encode, crate::specs::Unfolded::items, crate::specs::Unfolded::members, crate::specs::Unfolded::value, crate::specs::Unfolded::lex, crate::specs::Unfolded::punctuate, crate::specs::Unfolded::code_unit, crate::specs::Unfolded::short_escape, crate::specs::Unfolded::content, crate::specs::Unfolded::after_number, crate::specs::Unfolded::word, crate::specs::Unfolded::number_of, crate::specs::Unfolded::by_index, crate::specs::Unfolded::is_token_byte, crate::specs::Unfolded::trim_ows, iss_field::specs::Fields::field, iss_field::specs::Fields::required_field, iss_field::specs::Fields::required_field_unless, iss_field::specs::Fields::optional_field, iss_field::specs::Fields::optional_field_or, iss_field::specs::Names::name_text, iss_field::specs::Objects::object_of, iss_field::specs::Values::token_of, iss_field::specs::Values::currency_value, iss_field::specs::Values::amount_of, iss_field::specs::Values::mcc_of_text, iss_field::specs::Values::mcc_of, iss_event::specs::Kinds::kind_of_text, iss_event::specs::Kinds::kind_of, iss_event::specs::FormLines::form_text, iss_event::specs::Readings::opened_object, iss_event::specs::Readings::opened_line, iss_event::specs::Readings::said_line, iss_event::specs::Readings::line_read, iss_event::specs::Inputs::user_input, iss_event::specs::Inputs::authorization_input, iss_jit::specs::Outcomes::json_of, iss_jit::specs::Outcomes::uuid_of, iss_jit::specs::Outcomes::amount_echoed, iss_jit::specs::Outcomes::has_token, iss_jit::specs::Outcomes::amount_said, iss_jit::specs::Outcomes::outcome_of_value, iss_jit::specs::Outcomes::outcome_of))]
pub fn sessions_with_the_gateway()
    ensures two_in_flight { IsPlayed two_in_flight }
    ensures unreachable_gateway { IsPlayed unreachable_gateway }
    ensures stopped_in_flight { IsPlayed stopped_in_flight }
    ensures asked_again { IsPlayed asked_again }
    ensures answer_in_pieces { IsPlayed answer_in_pieces }
    ensures funded_in_part { IsPlayed funded_in_part }
    ensures part_not_permitted { IsPlayed part_not_permitted }
    ensures too_late { IsPlayed too_late }
    ensures bytes_behind_a_request { IsPlayed bytes_behind_a_request }
    ensures pending_and_conflict { IsPlayed pending_and_conflict }
    ensures notice_refused { IsPlayed notice_refused }
    ensures notice_acknowledged { IsPlayed notice_acknowledged }
    ensures garbled_answer { IsPlayed garbled_answer }
    ensures answer_cut_short { IsPlayed answer_cut_short }
    ensures waiting_client_fails { IsPlayed waiting_client_fails }
    ensures last_stamp { (session_after program_readers too_late.start too_late.happenings).clock ≡ LAST_STAMP }
{}
