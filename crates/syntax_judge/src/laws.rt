// Laws of the grammar: functions that do nothing and promise them.
ghost use Rattle.std.specs.Prelude.{◌≡◌, ◌↔◌, ℕ, List, None, Some};
ghost use Rattle.syntax_judge.specs.Faults.{IsSource, SyntaxFault, fault_place};
ghost use Rattle.syntax_judge.specs.Programs.{JudgeAnswers};
ghost use Rattle.syntax_judge.specs.Tables.{verdict_of};
ghost use Rattle.syntax_judge.specs.declared.kind.Kind.{Kind};
ghost use Rattle.syntax_judge.specs.declared.verdict.Verdict.{Verdict};

/// Tokens have one verdict, and it can be computed.
pub fn one_verdict()
    ensures { (kinds : List Kind) (verdict : Verdict) →
        JudgeAnswers kinds verdict ↔ (verdict_of kinds ≡ verdict) }
{}

/// A text is a program's or has one syntax fault, and its place can be computed.
pub fn one_fault()
    ensures source { (text : List ℕ) → IsSource text ↔ (fault_place text ≡ None) }
    ensures fault { (text : List ℕ) (place : ℕ) →
        SyntaxFault text place ↔ (fault_place text ≡ Some place) }
{}
