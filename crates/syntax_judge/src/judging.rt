// The judge of syntax.
ghost use Rattle.std.specs.Prelude.{IfOk};
ghost use Rattle.syntax_judge.specs.Programs.{JudgeAnswers, kinds_in};

use crate::kind::kind_of;
use crate::stack::{may_end, take_token};
use crate::symbol::{Part, Symbol};
use crate::verdict::Verdict;
use cloud_base::Memory;
use source_tokens::Placed;
use std::alloc::Global;

/// Whether tokens are a program's, and if not, where that shows. It takes as many steps as there
/// are tokens, and its recursion is never deeper than the grammar.
pub fn judge(alloc: Global, tokens: &[Placed]) -> Result<Verdict, Memory>
    ensures { IfOk result (JudgeAnswers (kinds_in tokens.now)) }
{
    let mut stack = Vec::new(alloc);
    stack.push(Symbol::Open(Part::Program))?;
    for (i, placed) in tokens.iter().enumerate() {
        if !take_token(&mut stack, kind_of(&placed.token))? {
            return Ok(Verdict::FailsAt(i));
        }
    }
    if may_end(&stack) {
        Ok(Verdict::Accepted)
    } else {
        Ok(Verdict::EndsTooSoon)
    }
}
