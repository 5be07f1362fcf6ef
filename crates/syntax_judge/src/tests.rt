// Verdicts and faults of small texts, and the verdict on as many tokens as a source may have.
use crate::{Kind, Part, Verdict, fault_of, judge, kind_of, productions};
use source_tokens::{Placed, Position, Scan, Terminal, Token, position_of, scan};
use std::test::Fail;

#[test]
fn judges_and_tells_places(rt: HostRuntime) -> Result<(), Fail> {
    let alloc = rt.alloc();
    for (text, verdict, fault) in [
        (b"schema {} client c {}".as_slice(), Verdict::Accepted, None),
        (
            b"schema {\n} client c { print 1 < 2 < 3; }".as_slice(),
            Verdict::FailsAt(10),
            Some(34),
        ),
        (
            b"schema {} client c { yield; ! }".as_slice(),
            Verdict::EndsTooSoon,
            Some(28),
        ),
        (b"schema {} ".as_slice(), Verdict::EndsTooSoon, Some(10)),
    ] {
        let found = scan(alloc, text)?;
        assert_eq!(rt; judge(alloc, found.tokens.as_slice())?, verdict);
        assert_eq!(rt; fault_of(alloc, text, &found)?, fault);
    }
    assert_eq!(rt;
        position_of(b"schema {\n} client c { print 1 < 2 < 3; }", 34),
        Position {
            line: 2,
            column: 26
        }
    );
    assert_eq!(rt; kind_of(&Token::Number(7)), Kind::Number);
    assert_eq!(rt; productions(Part::Fate).len(), 5);
    Ok(())
}

#[test]
fn judges_many_tokens(rt: HostRuntime) -> Result<(), Fail> {
    let alloc = rt.alloc();
    let Scan { mut tokens, .. } = scan(alloc, b"schema {} client c { print ")?;
    for at in 0..131_072 {
        tokens.push(Placed {
            token: Token::Fixed(Terminal::Minus),
            at: 27 + at,
            line: 1,
        })?;
    }
    assert_eq!(rt; judge(alloc, tokens.as_slice())?, Verdict::EndsTooSoon);
    Ok(())
}
