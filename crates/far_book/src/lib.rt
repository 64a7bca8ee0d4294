//! The region book: what knows where each object lies and what each log has, over any hand on the shared words.
//!
//! The book touches words only through [`Near`], a hand that it was given.
#![tactic(auto)]

mod book;
mod counts;
mod home;
mod jobs;
mod laws;
mod ledger;
mod live_span;
mod log_rows;
mod number_set;
mod order;

pub use book::{Book, has_evac};
pub use counts::Counts;
pub use far_hand::{Beset, Near, Plain};
pub use home::Home;
pub use laws::{
    evicting_is_legal, fetching_is_legal, jobs_are_so, jobs_come_and_go, live_spans_follow,
    loads_give_stored, moving_is_legal, order_is_by_age, placing_is_legal, releasing_is_legal,
    retiring_is_legal, sealed_logs_stay, staying_is_legal,
};
pub use live_span::LiveSpan;
pub use log_rows::LogRows;
