//! Tests of trees of pages: how many pages trees have, the words of their pages, lists that come
//! back, images that are no trees, and the records that are found in images of any making.
//!
//! The wanted values are worked out by hand from the definition of the tree and the layouts.

mod images;
mod trees;
mod walks;
mod wide;
