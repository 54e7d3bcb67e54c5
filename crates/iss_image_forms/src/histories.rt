//! Histories and their images.
ghost use Rattle.iss_image_forms.specs.Histories.{SpansHave64Bits, HistoriesAreInImageForm};

/// The numbers among the spans of a history's counters have 64 bits: they are windows of stamps, at offsets of controls. So the state of
/// legal records in form, told over their whole book, is in image form if they are no more than there may be.
#[tactic(auto, using(crate::proofs::SpansHistories::spans_of_history, crate::proofs::HistoryForms::history_in_form))]
pub fn histories_are_in_image_form()
    ensures spans { SpansHave64Bits }
    ensures form { HistoriesAreInImageForm }
{}
