//! What the command `page` shows of a page: its objects and the gaps between them, read off the
//! words by a walk, with the names that the labels tell. The view is this project's own.
#![tactic(auto)]

mod view;

pub use view::view_page;
