// The lines of the items to come.
ghost use Rattle.std.specs.Prelude.{◌≡◌};
ghost use Rattle.kind_rules.specs.Statements.{first_line, next_lines};

/// The line of the next item. A line beyond 32 bits counts as the last one that has them.
pub fn first_line(lines: &[usize]) -> u32
    ensures { result ≡ first_line lines.now }
{
    match lines {
        [] => 0,
        [line, ..] => u32::try_from(*line).unwrap_or(u32::MAX),
    }
}

/// The lines of the items behind the next one.
pub fn next_lines(lines: &[usize]) -> &[usize]
    ensures { result.now ≡ next_lines lines.now }
{
    match lines {
        [] => lines,
        [_, rest @ ..] => rest,
    }
}
