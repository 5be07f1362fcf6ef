// The place of a text's syntax fault.
ghost use Rattle.std.specs.Prelude.{◌≡◌, ◌≤◌, ◌↔◌, None, Some, IfSome, IfOk, length};
ghost use Rattle.source_tokens.specs.Scans.{scan};
ghost use Rattle.syntax_judge.specs.Faults.{IsSource, SyntaxFault, place_told};

use crate::judging::judge;
use crate::verdict::Verdict;
use cloud_base::Memory;
use source_tokens::Scan;
use std::alloc::Global;

// The place that a verdict on the tokens of a scan tells; the text ends here.
fn place_told(end: usize, found: &Scan, verdict: Verdict) -> Option<usize>
    ensures { result ≡ place_told end found.now verdict }
{
    match verdict {
        Verdict::Accepted => found.fault,
        Verdict::FailsAt(n) => found.tokens.as_slice().get(n).map(|placed| placed.at),
        Verdict::EndsTooSoon => Some(found.fault.unwrap_or(end)),
    }
}

/// Where the syntax fault of a text is, by its scan; None where it is a program's.
pub fn fault_of(alloc: Global, text: &[u8], found: &Scan) -> Result<Option<usize>, Memory>
    requires { found.now ≡ scan text.now }
    ensures none { IfOk result (λ fault. (fault ≡ None) ↔ IsSource text.now) }
    ensures place { IfOk result
        (λ fault. (at : _) → (fault ≡ Some at) ↔ SyntaxFault text.now at) }
    ensures within { IfOk result (λ fault. IfSome fault (λ at. at ≤ length text.now)) }
{
    let verdict = judge(alloc, found.tokens.as_slice())?;
    Ok(place_told(text.len(), found, verdict))
}
