//! What holds of the bytes of every list in form, however its tokens are spelled.
ghost use Rattle.iss_image_lists.specs.Meanings.{BalancesAreSpelledSo, CountersAreSpelledSo, NoticesAreSpelledSo, SumsAreSpelledSo, TxnsAreSpelledSo};

/// If what is read as a token was spelled so, and a token is read again, the same holds of each list that holds tokens.
pub fn lists_are_read_again()
    ensures txns { TxnsAreSpelledSo }
    ensures balances { BalancesAreSpelledSo }
    ensures counters { CountersAreSpelledSo }
    ensures sums { SumsAreSpelledSo }
    ensures notices { NoticesAreSpelledSo }
{}
