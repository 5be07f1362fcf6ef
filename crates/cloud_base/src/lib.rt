// Values, updates, queries, answers and events, and what the program reads from and writes to.
// A method `copied()` takes no memory. A method `copy(alloc)` takes some, and fails only for want
// of it.
#![tactic(auto)]

mod batch;
mod end;
mod in_memory;
mod key;
mod laws;
mod memory;
mod name;
mod schedule;
mod schema;
mod sequence;
mod std_streams;
mod streams;
mod text;
mod update;

pub use batch::{Batch, BatchList, Stretch, Tail};
pub use end::End;
pub use in_memory::{MemSink, MemSource};
pub use key::{Key, Keys, MOST_KEYS, Uid};
pub use laws::{
    alike_answers, answers_list, ascending_lists, creations_once, dead_after, dead_by_chains,
    dead_by_members, dead_grows, default_values, derived_orders, fit_logs, get_depends_on,
    log_parts, parts_of_logs, plain_steps, shaped_answers, total_orders,
};
pub use memory::Memory;
pub use name::Name;
pub use schedule::{Fate, Schedule, ScheduleItem};
pub use schema::{
    CellType, Entity, EntityList, KeyType, KeyTypeList, Owner, Property, PropertyList, Schema,
};
pub use sequence::Sequence;
pub use std_streams::{StdSink, StdSource};
pub use streams::{Failed, Sink, Source};
pub use text::{MOST_TEXT_BYTES, Text, TextFault};
pub use update::{
    Answer, CellChange, Event, EventList, IdList, Query, TupleList, Update, copy_events,
};
