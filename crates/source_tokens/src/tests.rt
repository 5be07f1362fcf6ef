// Scans of small texts.
use crate::{MOST_OPEN, Position, Terminal, Token, has_too_many_open, position_of, scan};
use std::test::Fail;

#[test]
fn scans_places_and_counts(rt: HostRuntime) -> Result<(), Fail> {
    let alloc = rt.alloc();
    let text = b"yields <=\n \"a\\\"\" 18446744073709551616 while !";
    let found = scan(alloc, text)?;
    assert_eq!(rt; found.fault, Some(44));
    let [name, symbol, literal, number, word] = found.tokens.as_slice() else {
        return Err(Fail::from("not five tokens"));
    };
    let Token::Name(identifier) = &name.token else {
        return Err(Fail::from("no name"));
    };
    assert_eq!(rt; identifier.copy(alloc)?.name().as_str(), "yields");
    assert!(rt; matches!(symbol.token, Token::Fixed(Terminal::LessOrEqual)));
    let Token::Text(bytes) = &literal.token else {
        return Err(Fail::from("no text"));
    };
    assert_eq!(rt; bytes.as_slice(), b"a\"".as_slice());
    assert!(rt; matches!(number.token, Token::Number(u64::MAX)));
    assert!(rt; matches!(word.token, Token::Fixed(Terminal::While)));
    assert_eq!(rt; (literal.at, literal.line), (11, 2));
    assert_eq!(rt;
        position_of(text, 44),
        Position {
            line: 2,
            column: 35
        }
    );
    Ok(())
}

#[test]
fn counts_open_brackets(rt: HostRuntime) -> Result<(), Fail> {
    let alloc = rt.alloc();
    for (brackets, too_many) in [(MOST_OPEN, false), (MOST_OPEN + 1, true)] {
        let mut text = Vec::new(alloc);
        for _ in 0..brackets {
            text.push(b'[')?;
        }
        let found = scan(alloc, text.as_slice())?;
        assert_eq!(rt; has_too_many_open(found.tokens.as_slice()), too_many);
    }
    Ok(())
}
