// Listings, of which the items are taken one by one.
ghost use Rattle.std.specs.Prelude.{◌≡◌, map, option_map};
ghost use Rattle.cloud_base.specs.declared.update.Answer.{Answer};
ghost use Rattle.typed_program.specs.Trace.{value_of};
ghost use Rattle.plain_vm.specs.Exec.{first_item};

use cloud_base::{IdList, Key, Keys, TupleList, Uid};
use std::marker::Model;
use std::vec::IntoIter;

#[derive(Drop)]
enum Left {
    Ids(IntoIter<Uid>),
    Tuples(IntoIter<Keys>),
}

// What is left of a listing. Contracts see the answer that lists it.
#[derive(Drop)]
pub struct Listing {
    left: Left,
}

impl Model for Listing {
    ghost use Rattle.cloud_base.specs.declared.update.Answer.{Answer};

    ghost Value = { Answer };

    ghost use Rattle.code_machine.specs.Listings.{listing_of};

    ghost view = { λ l. listing_of l.left };
}

impl Listing {
    pub fn ids(ids: IdList) -> Listing
        ensures { result ≡ Answer.Ids ids }
    {
        Listing {
            left: Left::Ids(ids.into_vec().into_iter()),
        }
    }

    pub fn tuples(tuples: TupleList) -> Listing
        ensures { result ≡ Answer.Tuples tuples }
    {
        Listing {
            left: Left::Tuples(tuples.into_vec().into_iter()),
        }
    }

    // The keys of its first item, and what is left behind that. An id is one key.
    pub fn take_item(self) -> Option<(Keys, Listing)>
        ensures { first_item self ≡ option_map (λ r. (map value_of r.0, r.1)) result }
    {
        let Listing { left } = self;
        match left {
            Left::Ids(mut ids) => {
                let id = ids.next()?;
                let left = Left::Ids(ids);
                Some((Keys::one(Key::Ref(id)), Listing { left }))
            }
            Left::Tuples(mut tuples) => {
                let keys = tuples.next()?;
                let left = Left::Tuples(tuples);
                Some((keys, Listing { left }))
            }
        }
    }
}
