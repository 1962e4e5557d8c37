//! Laws on trees of pages, each the contract of a function that does nothing.

ghost use Rattle.dn_radix.specs.Terms.{LevelIsLeast, OneListOfTree, TreeIsWalked, WordsAreFound};

/// The number of levels of a tree is the least that has room for its words.
pub fn level_is_least()
    ensures { LevelIsLeast }
{}

/// In the tree of words each word is found.
pub fn words_are_found()
    ensures { WordsAreFound }
{}

/// An image is the tree of at most one list of so many words.
pub fn one_list_of_tree()
    ensures { OneListOfTree }
{}

/// A walk of the tree of a unit's words gives for each slot the record that its words spell.
pub fn tree_is_walked()
    ensures { TreeIsWalked }
{}
