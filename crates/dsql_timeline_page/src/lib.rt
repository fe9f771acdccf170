//! Writes a page of HTML with a picture that is made of bars. Each bar has a name and a title, whose text is escaped.
//!
//! Bars are counted in columns and rows. The style sheet says how wide a column is, and paints each class of bars.
#![tactic(auto)]

mod bar;
mod escape;
mod head;
mod laws;
mod page;
mod texts;

pub use bar::{Bar, Class};
pub use head::FOLDED_ABOVE;
pub use laws::{escaped_texts_break_no_page, worked_bar, worked_escapes};
pub use page::Page;
