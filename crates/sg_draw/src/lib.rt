//! The picture of a run: as an SVG document, and in the columns of a terminal.
//!
//! - `drawing`: the picture as a document (`picture`); `marks`: its lanes, row by row; `svg`: its lines and texts; `style`: its fixed parts;
//!   `sheet`: where everything stands
//! - `terminal`: the picture in columns (`columns`); `cells`: the marks of its lines
//! - `rows`: the rows of a picture, from top to bottom; `labels`: what is written beside them; `places`: where in a history a call stands
//! - `lanes`: the clients' lanes, and who waits in them
//! - `visible`: bytes as they are shown; `words`: what the legend says
//!
//! `specs/Labels.antt` says what a picture tells, `specs/Shown.antt` how texts stand in it, `specs/Documents.antt` what a document has, and
//! `specs/Pictures.antt` what a picture is.
#![tactic(auto)]

mod cells;
mod drawing;
mod labels;
mod lanes;
mod marks;
mod places;
mod rows;
mod sheet;
mod style;
mod svg;
mod terminal;
mod visible;
mod words;

pub use drawing::picture;
pub use terminal::columns;
