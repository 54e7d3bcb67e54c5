//! What a state has beside its events.
use iss_model::{CarriedList, CounterList, NoticeList, SaldoList, StoodList};

/// The lists of a state but its events, and how many notices were made.
#[derive(Drop)]
pub(crate) struct Lists {
    pub(crate) txns: CarriedList,
    pub(crate) balances: SaldoList,
    pub(crate) counters: CounterList,
    pub(crate) sums: StoodList,
    pub(crate) made: u32,
    pub(crate) notices: NoticeList,
}
