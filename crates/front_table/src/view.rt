// What a seat of a chronicle knows of it.
use std::collections::LinkedList;

/// What a seat of a chronicle's table knows. No value of it is made.
pub struct View<E> {
    pub is_writer: bool,
    pub is_spent: bool,
    /// A beginning of the chronicle; the writer's is all of it.
    pub list: LinkedList<E>,
    /// The two lists that its last join put together.
    pub before: LinkedList<E>,
    pub joined: LinkedList<E>,
}
