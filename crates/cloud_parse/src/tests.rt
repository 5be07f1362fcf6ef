// A tree with its lines, a limit and a syntax fault.
use crate::{MOST_SOURCE_BYTES, ParseFault, Which, parse};
use std::test::Fail;

const SOURCE: &[u8] = b"schema { global g : CInt; }\n\
    client a { if 1 + 2 * g == 3 { yield; }\n print -g; }\n\
    schedule { a 2;\n serve a hold; }";

#[test]
fn parses_or_tells_the_fault(rt: HostRuntime) -> Result<(), Fail> {
    let alloc = rt.alloc();
    let parsed = parse(alloc, SOURCE)?;
    assert_eq!(rt; parsed.lines.as_slice(), [1, 2, 2, 2, 3, 4, 5].as_slice());
    assert_eq!(rt; parsed.tree.program().clients.len(), 1);
    for (text, fault) in [
        (
            [b' '; MOST_SOURCE_BYTES + 1].as_slice(),
            ParseFault::Limit(Which::Bytes),
        ),
        (
            b"schema {} client a { print 9223372036854775808; }".as_slice(),
            ParseFault::Limit(Which::Number),
        ),
        (
            b"schema {}\nclient a { print; }".as_slice(),
            ParseFault::Syntax {
                line: 2,
                column: 17,
            },
        ),
    ] {
        assert_eq!(rt; parse(alloc, text).err(), Some(fault));
    }
    Ok(())
}
