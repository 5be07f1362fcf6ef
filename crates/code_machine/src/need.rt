// What a machine needs.
use cloud_base::{Answer, End, Query, Update};

/// What is to be done for a client before its machine goes on, or how its run ended.
#[derive(Drop, PartialEq, Eq)]
pub enum Need {
    Do(Update),
    Ask(Query),
    Say(Answer),
    Yield,
    Flush,
    Ended(End),
}
