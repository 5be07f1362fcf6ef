// Letters that are left for each other.
ghost use Rattle.std.specs.Prelude.{◌≡◌, ℕ, ⊤};
ghost use Rattle.slot_hub.specs.Runs.{Named, two_clients};

use crate::{Homed, Hub, Numbered, PlainHub, Run};
use std::test::Fail;

struct Pair {}

impl Run for Pair {
    ghost name = { two_clients };
}

#[derive(Drop, PartialEq, Eq, Debug)]
struct Letter {
    from: u8,
    round: u64,
}

impl Numbered for Letter {
    ghost round_of = { λ letter. letter.round };

    ghost client_of = { λ letter. letter.from };

    ghost of_run = { λ _ _. ⊤ };

    fn round(&self) -> u64
        ensures { result ≡ self.now.round }
    {
        self.round
    }

    fn client(&self) -> u8
        ensures { result ≡ self.now.from }
    {
        self.from
    }
}

#[derive(Drop)]
struct Desk {
    handled: u32,
}

impl Homed for Desk {
    ghost of_run = { λ _ _. ⊤ };
}

#[test]
fn letters_lie_in_boxes_until_they_are_taken(rt: HostRuntime) -> Result<(), Fail> {
    let desk = Desk { handled: 3 };
    let mut hub = PlainHub::<Pair, Desk, Letter, Letter>::new(rt.alloc(), 2, desk)?;
    let first = Letter { from: 1, round: 1 };
    assert!(rt; matches!(hub.trade_out(1, Some(first)), Ok(None)));
    assert!(rt; matches!(hub.trade_out(0, None), Ok(None)));
    let push = hub.trade_out(1, None);
    assert!(rt; matches!(push, Ok(Some(Letter { from: 1, round: 1 }))));
    let reply = Letter { from: 1, round: 1 };
    assert!(rt; matches!(hub.trade_in(1, Some(reply)), Ok(None)) && hub.taken(1) == 0);
    let second = Letter { from: 1, round: 2 };
    assert!(rt;
        matches!(
            hub.trade_in(1, Some(second)),
            Ok(Some(Letter { from: 1, round: 1 }))
        )
    );
    assert!(rt; hub.taken(1) == 0);
    assert!(rt;
        matches!(
            hub.trade_in(1, None),
            Ok(Some(Letter { from: 1, round: 2 }))
        )
    );
    assert!(rt; hub.taken(1) == 2 && hub.taken(0) == 0);
    let Ok(desk) = hub.take_server() else {
        return Err(Fail::from("the server is away"));
    };
    assert!(rt; desk.handled == 3);
    hub.give_server(Desk { handled: 4 });
    assert!(rt; matches!(hub.take_server(), Ok(Desk { handled: 4 })));
    Ok(())
}
