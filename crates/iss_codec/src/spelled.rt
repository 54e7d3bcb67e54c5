//! What holds of the bytes of every record in form: it has one spelling, which is read again.
ghost use Rattle.std.specs.Prelude.{◌≡◌, ◌++◌, List, ℕ, [], Some, None, IsTrue};
ghost use Rattle.iss_model.specs.declared.currency.Currency.{Currency};
ghost use Rattle.iss_model.specs.declared.input.Record.{Record};
ghost use Rattle.iss_model.specs.Tokens.{is_token};
ghost use Rattle.iss_model.specs.Forms.{is_amount};
ghost use Rattle.iss_model.specs.Inputs.{with_length};
ghost use Rattle.iss_model.specs.texts.Spelling.{AreBytes, amount_bytes, currency_bytes, spelling, is_record};
ghost use Rattle.iss_codec.specs.Taking.{take_token, take_amount, take_currency};
ghost use Rattle.iss_codec.specs.TakingRecords.{take_record, record_spelled};
ghost use Rattle.iss_codec.specs.Meanings.{IsSpellingOf, BeginsWith};

/// A field that is spelled is read again, whatever follows it.
#[tactic(auto, using(crate::proofs::TakenLaws::token_read, crate::proofs::TakenLaws::amount_read, crate::proofs::TakenLaws::currency_read))]
pub fn fields_are_read_again()
    ensures token { (text rest : List ℕ) → IsTrue (is_token text) → take_token (with_length text ++ rest) ≡ Some (text, rest) }
    ensures amount { (n : ℕ) (rest : List ℕ) → IsTrue (is_amount n) → take_amount (amount_bytes n ++ rest) ≡ Some (n, rest) }
    ensures currency { (c : Currency) (rest : List ℕ) → take_currency (currency_bytes c ++ rest) ≡ Some (c, rest) }
{}

/// A record that is spelled is read again, whatever follows it, and what is read as a record was spelled so.
#[tactic(auto, using(crate::proofs::TakenRecords::record_again, crate::proofs::TakenRecords::spelled_again, crate::proofs::TakenLaws::record_back, crate::proofs::TakenLaws::none_read, crate::proofs::TakenLaws::no_other))]
pub fn records_are_read_again()
    ensures again { (r : Record) (rest : List ℕ) → IsTrue (is_record r) → take_record (spelling r ++ rest) ≡ Some (r, rest) }
    ensures back { (bytes rest : List ℕ) (r : Record) → AreBytes bytes → take_record bytes ≡ Some (r, rest) → BeginsWith r rest bytes }
    ensures alone { (r : Record) → IsTrue (is_record r) → record_spelled (spelling r) ≡ Some r }
    ensures alone_back { (bytes : List ℕ) (r : Record) → AreBytes bytes → record_spelled bytes ≡ Some r → IsSpellingOf r bytes }
    ensures none { (bytes : List ℕ) (r : Record) → record_spelled bytes ≡ None → IsSpellingOf r bytes → ⊥ }
    ensures begins_no_other { (r s : Record) (rest : List ℕ) → IsTrue (is_record s) → BeginsWith r rest (spelling s) → (s ≡ r) × (rest ≡ []) }
{}
