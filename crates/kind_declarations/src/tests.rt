// Small declarations.
ghost use Rattle.std.specs.Prelude.{◌≡◌, IfOk};
ghost use Rattle.source_tree.specs.Limits.{names_in};

use crate::check_declarations;
use cloud_base::{CellType, KeyType, Owner, Sequence};
use kind_bodies::KindFault;
use source_tokens::{Identifier, Token, scan};
use source_tree::{Declaration, Key, KeyType as WrittenType, Property};
use std::alloc::Global;
use std::test::Fail;

fn identifier(alloc: Global, text: &[u8]) -> Result<Identifier, Fail> {
    let found = scan(alloc, text)?;
    if let [placed] = found.tokens.as_slice() {
        if let Token::Name(name) = &placed.token {
            return Ok(name.copy(alloc)?);
        }
    }
    Err(Fail::from("no name"))
}

fn total(alloc: Global) -> Result<Declaration, Fail>
    ensures { IfOk result (λ d. names_in d ≡ 1) }
{
    Ok(Declaration::Global(Property {
        name: identifier(alloc, b"total")?,
        cell: CellType::Int,
    }))
}

// An array with a key and a property.
fn stock(alloc: Global, of: WrittenType) -> Result<Declaration, Fail>
    ensures { IfOk result (λ d. names_in d ≡ 3) }
{
    let mut keys = Sequence::new(alloc);
    keys.push(Key {
        name: identifier(alloc, b"item")?,
        of,
    })?;
    let mut properties = Sequence::new(alloc);
    properties.push(Property {
        name: identifier(alloc, b"count")?,
        cell: CellType::Text,
    })?;
    Ok(Declaration::Array(identifier(alloc, b"Stock")?, keys, properties))
}

#[test]
fn globals_come_first(rt: HostRuntime) -> Result<(), Fail> {
    let alloc = rt.alloc();
    let declarations = [stock(alloc, WrittenType::Int)?, total(alloc)?];
    let (declared, rest) = check_declarations(alloc, &declarations, &[2, 3, 5])?;
    assert_eq!(rt; rest, [5].as_slice());
    let schema = declared.into_schema();
    let [first, second] = schema.properties.as_slice() else {
        return Err(Fail::from("not two properties"));
    };
    assert_eq!(rt; first.name.as_str(), "total");
    assert!(rt; matches!(first.owner, Owner::Global));
    assert_eq!(rt; second.keys.as_slice(), [KeyType::Int].as_slice());
    Ok(())
}

#[test]
fn an_unknown_type_is_told(rt: HostRuntime) -> Result<(), Fail> {
    let alloc = rt.alloc();
    let item = WrittenType::Entity(identifier(alloc, b"Item")?);
    let declarations = [total(alloc)?, stock(alloc, item)?];
    let found = check_declarations(alloc, &declarations, &[2, 3]);
    assert!(rt; matches!(found, Err(KindFault::Rule { rule: 3, line: 3 })));
    Ok(())
}
