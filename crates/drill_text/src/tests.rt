// Drills whose text is known.
use crate::drill;
use std::test::Fail;

const DRILL_OF_ONE: &str =
    "schema { global total : CInt; array Stock[item: string] { n: CInt; note: CString } \
    entity Order { count: CInt } }
client c0 {
if true { var o = new Order; o.count.add(71); }
flush;
}
client c1 {
print total;
flush;
}
client c2 {
foreach o in all Order { delete o; }
flush;
}
client c3 {
if true { var o = new Order; o.count.add(81); }
flush;
}
";

#[test]
fn is_the_drill_of_one(rt: HostRuntime) -> Result<(), Fail> {
    let text = drill(rt.alloc(), 1)?;
    assert_eq!(rt; text.as_slice(), DRILL_OF_ONE.as_bytes());
    Ok(())
}

#[test]
fn is_short_enough_at_its_longest(rt: HostRuntime) -> Result<(), Fail> {
    let text = drill(rt.alloc(), 1_000)?;
    assert!(rt; 4_000 < text.len());
    assert!(rt; text.len() <= 262_144);
    Ok(())
}
