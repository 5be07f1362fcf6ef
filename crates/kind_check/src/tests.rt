// A source that is checked, and one fault of each part.
use crate::{KindFault, check};
use cloud_base::{Fate, ScheduleItem};
use cloud_parse::parse;
use std::alloc::Global;
use std::test::Fail;

const SOURCE: &[u8] = b"schema { global g : CInt; }\n\
    client a { g.add(2); }\n\
    client b { print g; }\n\
    schedule { b 2;\n serve a pass; }";

fn fault(alloc: Global, text: &[u8]) -> Result<Option<(u8, u32)>, Fail> {
    match check(alloc, parse(alloc, text)?) {
        Ok(_) => Ok(None),
        Err(KindFault::Rule { rule, line }) => Ok(Some((rule, line))),
        Err(KindFault::Memory) => Err(Fail::from("out of memory")),
    }
}

#[test]
fn makes_a_program_or_tells_the_fault(rt: HostRuntime) -> Result<(), Fail> {
    let alloc = rt.alloc();
    let program = check(alloc, parse(alloc, SOURCE)?)?;
    assert_eq!(rt; program.clients(), 2);
    assert_eq!(rt; program.name(1), "b");
    assert_eq!(rt; program.body(1).len(), 1);
    assert!(rt;
        matches!(
            program.schedule().as_slice(),
            [
                ScheduleItem::Steps {
                    client: 1,
                    count: 2
                },
                ScheduleItem::Serve {
                    client: 0,
                    fate: Fate::Pass
                },
            ]
        )
    );
    for (text, told) in [
        (SOURCE, None),
        (
            b"schema { global g : CInt;\n global g : CInt; }\nclient a {}".as_slice(),
            Some((1, 2)),
        ),
        (
            b"schema {}\nclient a {}\nclient a {}".as_slice(),
            Some((1, 3)),
        ),
        (
            b"schema {}\nclient a { yield;\n print 1 + true;\n print x; }".as_slice(),
            Some((7, 3)),
        ),
        (
            b"schema {}\nclient a {}\nschedule { a 1;\n b 1; }".as_slice(),
            Some((11, 4)),
        ),
    ] {
        assert_eq!(rt; fault(alloc, text)?, told);
    }
    Ok(())
}
