//! The lines of `bounds`: for each domain and device the number of the drill, the tight one and the calm
//! one.
mod bounds_lines;
mod lines;

pub use bounds_lines::BoundsLines;
pub use sd_drill_text::print_texts;
