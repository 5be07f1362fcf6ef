use crate::{ReadFault, WireFault, read};
use cloud_base::{Schema, Sequence};
use std::test::Fail;

#[test]
fn no_bytes_are_cut_short(rt: HostRuntime) -> Result<(), Fail> {
    let schema = Schema {
        properties: Sequence::new(rt.alloc()),
        entities: Sequence::new(rt.alloc()),
    };
    let cut = read(rt.alloc(), &schema, &[]);
    assert!(rt; matches!(cut, Err(ReadFault::Wire(WireFault::Short { at: 0 }))));
    Ok(())
}
