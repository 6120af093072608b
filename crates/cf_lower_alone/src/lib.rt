//! Laws of one lowered file whose unit is linked alone: the C program that it is linked to, that both programs fit, what stands in both as they start, and that both do the
//! same.
#![tactic(auto)]

mod agrees;
mod fitting;
mod linked;
mod starts;

pub use agrees::one_file_agrees;
pub use fitting::one_file_fits;
pub use linked::a_lowered_file_links_alone;
pub use starts::one_file_starts;
