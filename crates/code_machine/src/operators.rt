// What the operators give.
ghost use Rattle.std.specs.Prelude.{◌≡◌, ◌≢◌, true, false, pos, ◌+ℤ◌, ◌-ℤ◌, ◌*ℤ◌, neg_ℤ, int_div};
ghost use Rattle.std.specs.Prelude.{int_rem, MatchResult};
ghost use Rattle.std.specs.Int.{w64, int_wrap};
ghost use Rattle.cloud_base.specs.Events.{ended};
ghost use Rattle.typed_program.specs.Does.{World, goes, ends};
ghost use Rattle.typed_program.specs.Trace.{combine, is_zero, int_of, same_value, value_order};
ghost use Rattle.plain_vm.specs.Exec.{line_of, operator_of};

use crate::values::{int_of, text_of};
use cloud_base::{Answer, End};
use plain_vm::Binary;
use std::cmp::Ordering;

// The divisor, where it isn't 0.
fn divisor(line: u32, value: &Answer) -> Result<i64, End>
    ensures { MatchResult result
        (λ n. (n ≡ int_of value.now) × (n ≢ pos 0) × (is_zero value.now ≡ false))
        (λ end. (end ≡ End.Trap line) × (is_zero value.now ≡ true)) }
{
    let number = int_of(value);
    if number == 0 {
        return Err(End::Trap { line });
    }
    Ok(number)
}

fn sum(a: i64, b: i64) -> i64
    ensures { result ≡ int_wrap w64 (a +ℤ b) }
{
    a.wrapping_add(b)
}

fn difference(a: i64, b: i64) -> i64
    ensures { result ≡ int_wrap w64 (a -ℤ b) }
{
    a.wrapping_sub(b)
}

fn product(a: i64, b: i64) -> i64
    ensures { result ≡ int_wrap w64 (a *ℤ b) }
{
    a.wrapping_mul(b)
}

fn quotient(a: i64, b: i64) -> i64
    requires { b ≢ pos 0 }
    ensures { result ≡ int_wrap w64 (int_div a b) }
{
    a.wrapping_div(b)
}

fn remainder(a: i64, b: i64) -> i64
    requires { b ≢ pos 0 }
    ensures { result ≡ int_wrap w64 (int_rem a b) }
{
    a.wrapping_rem(b)
}

pub fn negated(a: i64) -> i64
    ensures { result ≡ int_wrap w64 (neg_ℤ a) }
{
    a.wrapping_neg()
}

fn same(a: &Answer, b: &Answer) -> bool
    ensures { result ≡ same_value a.now b.now }
{
    match (a, b) {
        (Answer::Int(a), Answer::Int(b)) => a == b,
        (Answer::Text(a), Answer::Text(b)) => a.cmp(b).is_eq(),
        (Answer::Truth(a), Answer::Truth(b)) => a == b,
        (Answer::Id(a), Answer::Id(b)) => a.cmp(b).is_eq(),
        _ => false,
    }
}

fn order(a: &Answer, b: &Answer) -> Ordering
    ensures { result ≡ value_order a.now b.now }
{
    match (a, b) {
        (Answer::Int(a), Answer::Int(b)) => a.cmp(b),
        (Answer::Text(a), Answer::Text(b)) => a.cmp(b),
        _ => Ordering::Equal,
    }
}

// What the operator gives, or how it ends the run.
pub fn combine(binary: Binary, a: &Answer, b: &Answer) -> Result<Answer, End>
    ensures { MatchResult result
        (λ value. (w : World) →
        combine (line_of binary) (operator_of binary) a.now b.now w ≡ goes value w)
        (λ end. (w : World) →
        combine (line_of binary) (operator_of binary) a.now b.now w
        ≡ ends (ended end) w.events) }
{
    Ok(match binary {
        Binary::Add => Answer::Int(sum(int_of(a), int_of(b))),
        Binary::Subtract => Answer::Int(difference(int_of(a), int_of(b))),
        Binary::Multiply => Answer::Int(product(int_of(a), int_of(b))),
        Binary::Divide(line) => Answer::Int(quotient(int_of(a), divisor(line, b)?)),
        Binary::Remainder(line) => Answer::Int(remainder(int_of(a), divisor(line, b)?)),
        Binary::Concat => Answer::Text(text_of(a).cat(&text_of(b))),
        Binary::Equal => Answer::Truth(same(a, b)),
        Binary::NotEqual => Answer::Truth(!same(a, b)),
        Binary::Less => Answer::Truth(order(a, b).is_lt()),
        Binary::LessOrEqual => Answer::Truth(order(a, b).is_le()),
        Binary::Greater => Answer::Truth(order(a, b).is_gt()),
        Binary::GreaterOrEqual => Answer::Truth(order(a, b).is_ge()),
    })
}
