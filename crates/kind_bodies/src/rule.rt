// The lowest of the rules that fail.
ghost use Rattle.std.specs.Prelude.{◌≡◌};
ghost use Rattle.kind_rules.specs.Answers.{lowest_rule};
ghost use Rattle.kind_rules.specs.Expressions.{unless};
ghost use Rattle.kind_bodies.specs.Found.{lower, or_unless};

/// The number of a rule that fails, if one does.
pub type Rule = Option<u8>;

pub fn unless(holds: bool, rule: u8) -> Rule
    ensures { result ≡ lowest_rule (unless holds rule) }
{
    if holds { None } else { Some(rule) }
}

pub fn lower(first: Rule, second: Rule) -> Rule
    ensures { result ≡ lower first second }
{
    match (first, second) {
        (None, second) => second,
        (Some(first), None) => Some(first),
        (Some(first), Some(second)) => Some(first.min(second)),
    }
}

// A rule that is asked only where no other fails.
pub fn or_unless(failed: Rule, holds: bool, rule: u8) -> Rule
    ensures { result ≡ or_unless failed holds rule }
{
    match failed {
        Some(failed) => Some(failed),
        None => unless(holds, rule),
    }
}
