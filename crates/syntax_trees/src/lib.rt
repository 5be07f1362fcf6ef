// What the judge of syntax accepts has a tree.
#![tactic(auto)]

mod laws;

pub use laws::some_tree;
