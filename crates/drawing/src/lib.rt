// The pieces of an SVG picture, written into a lent row: its head and foot, rectangles with a text that hovering shows, labels, paths, and
// times on an axis. Places and sizes are in tenths of a pixel. Nothing is written past the end of the row: what has no room is left out.
// No public function has a `requires`.
#![tactic(auto)]

pub mod axis;
pub mod document;
pub mod pieces;
