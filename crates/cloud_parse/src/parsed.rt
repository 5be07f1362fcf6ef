// What is made of a source text.
use cloud_base::Sequence;
use source_tree::Tree;

/// The lines of a source's items, in the order of their first tokens. An item is a global, an
/// array, an entity, a client, a statement or an item of the schedule; its line is that of its
/// first token, from 1.
pub type LineList = Sequence<usize>;

/// A source's tree, and the line of each of its items.
#[derive(Drop)]
pub struct Parsed {
    pub tree: Tree,
    pub lines: LineList,
}
