//! The tables of cases.

mod choices;
mod fields;
mod reasons;

pub use choices::choice_cases;
pub use fields::field_cases;
pub use reasons::reason_cases;
