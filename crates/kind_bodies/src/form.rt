// The forms of expressions, from what comes of their parts.
ghost use Rattle.std.specs.Prelude.{◌≡◌, IfOk};
ghost use Rattle.kind_rules.specs.Expressions.{fine, fails};
ghost use Rattle.kind_bodies.specs.Found.{told, minus_found, not_found, binary_found};

use crate::found::Found;
use crate::operator::{combined, fits, gives, is_same};
use crate::rule::{lower, or_unless};
use cloud_base::Memory;
use source_tree::Operator;
use sqlite_items::Boxed;
use std::alloc::Global;
use typed_program::{Expression, Kind};

/// An expression in which no rule fails.
pub fn fine(kind: Kind, typed: Expression) -> Found
    ensures { result ≡ told (fine kind typed) }
{
    Found {
        rule: None,
        kind,
        typed,
    }
}

pub fn fails(rule: u8) -> Found
    ensures { result ≡ told (fails rule) }
{
    Found {
        rule: Some(rule),
        kind: Kind::Int,
        typed: Expression::Int(0),
    }
}

pub fn minus(alloc: Global, inner: Found) -> Result<Found, Memory>
    ensures { IfOk result (λ found. found ≡ minus_found inner) }
{
    Ok(Found {
        rule: or_unless(inner.rule, is_same(Kind::Int, inner.kind), 7),
        kind: Kind::Int,
        typed: Expression::Minus(Boxed::new(alloc, inner.typed)?),
    })
}

pub fn not(alloc: Global, inner: Found) -> Result<Found, Memory>
    ensures { IfOk result (λ found. found ≡ not_found inner) }
{
    Ok(Found {
        rule: or_unless(inner.rule, is_same(Kind::Truth, inner.kind), 7),
        kind: Kind::Truth,
        typed: Expression::Not(Boxed::new(alloc, inner.typed)?),
    })
}

pub fn binary(alloc: Global, operator: Operator, left: Found, right: Found) -> Result<Found, Memory>
    ensures { IfOk result (λ found. found ≡ binary_found operator left right) }
{
    let fit = fits(operator, left.kind, right.kind);
    Ok(Found {
        rule: or_unless(lower(left.rule, right.rule), fit, 7),
        kind: gives(operator),
        typed: combined(alloc, operator, left.typed, right.typed)?,
    })
}
