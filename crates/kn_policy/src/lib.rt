//! The activator's load-balancing policies: which of the Ready pods the next held request goes to.
#![tactic(auto)]

mod laws;
mod marks;
mod nth;
mod policy;

pub use kn_trace::Cand;
pub use laws::choice_laws;
pub use marks::first_free;
pub use policy::Policy;
