// The grammar.
ghost use Rattle.std.specs.Prelude.{◌≡◌, map};
ghost use Rattle.syntax_judge.specs.Grammar.{productions};

use crate::kind::Kind::{Fixed, Name, Number, Text};
use crate::symbol::Part;
use crate::symbol::Symbol::{self, Open, Token};
use source_tokens::Terminal;

/// What a part may become. The first way of each is one that ends soon.
pub fn productions(part: Part) -> &'static [&'static [Symbol]]
    ensures { map (λ p. p.now) result.now ≡ productions part }
{
    match part {
        Part::Program => &[&[
            Token(Fixed(Terminal::Schema)),
            Token(Fixed(Terminal::OpenBrace)),
            Open(Part::DeclarationTail),
            Open(Part::Client),
            Open(Part::ClientTail),
        ]],
        Part::DeclarationTail => &[
            &[Token(Fixed(Terminal::CloseBrace))],
            &[Open(Part::Declaration), Open(Part::DeclarationTail)],
        ],
        Part::Declaration => &[
            &[
                Token(Fixed(Terminal::Global)),
                Token(Name),
                Token(Fixed(Terminal::Colon)),
                Open(Part::CellType),
                Token(Fixed(Terminal::Semicolon)),
            ],
            &[
                Token(Fixed(Terminal::Array)),
                Token(Name),
                Token(Fixed(Terminal::OpenBracket)),
                Open(Part::Key),
                Open(Part::KeyTail),
                Open(Part::Properties),
            ],
            &[
                Token(Fixed(Terminal::Entity)),
                Token(Name),
                Open(Part::EntityKeys),
                Open(Part::Properties),
            ],
        ],
        Part::EntityKeys => &[
            &[],
            &[
                Token(Fixed(Terminal::OpenBracket)),
                Open(Part::Key),
                Open(Part::KeyTail),
            ],
        ],
        Part::Key => &[&[
            Token(Name),
            Token(Fixed(Terminal::Colon)),
            Open(Part::KeyType),
        ]],
        Part::KeyType => &[
            &[Token(Fixed(Terminal::Int))],
            &[Token(Fixed(Terminal::String))],
            &[Token(Name)],
        ],
        Part::KeyTail => &[
            &[Token(Fixed(Terminal::CloseBracket))],
            &[
                Token(Fixed(Terminal::Comma)),
                Open(Part::Key),
                Open(Part::KeyTail),
            ],
        ],
        Part::Properties => &[&[
            Token(Fixed(Terminal::OpenBrace)),
            Open(Part::PropertiesInside),
        ]],
        Part::PropertiesInside => &[
            &[Token(Fixed(Terminal::CloseBrace))],
            &[Open(Part::Property), Open(Part::PropertyTail)],
        ],
        Part::PropertyTail => &[
            &[Token(Fixed(Terminal::CloseBrace))],
            &[
                Token(Fixed(Terminal::Semicolon)),
                Open(Part::PropertiesInside),
            ],
        ],
        Part::Property => &[&[
            Token(Name),
            Token(Fixed(Terminal::Colon)),
            Open(Part::CellType),
        ]],
        Part::CellType => &[
            &[Token(Fixed(Terminal::CInt))],
            &[Token(Fixed(Terminal::CString))],
        ],
        Part::Client => &[&[
            Token(Fixed(Terminal::Client)),
            Token(Name),
            Open(Part::Block),
        ]],
        Part::ClientTail => &[
            &[],
            &[Open(Part::Client), Open(Part::ClientTail)],
            &[
                Token(Fixed(Terminal::Schedule)),
                Token(Fixed(Terminal::OpenBrace)),
                Open(Part::ItemTail),
            ],
        ],
        Part::Block => &[&[Token(Fixed(Terminal::OpenBrace)), Open(Part::StatementTail)]],
        Part::StatementTail => &[
            &[Token(Fixed(Terminal::CloseBrace))],
            &[Open(Part::Statement), Open(Part::StatementTail)],
        ],
        Part::Statement => &[
            &[
                Token(Fixed(Terminal::Yield)),
                Token(Fixed(Terminal::Semicolon)),
            ],
            &[
                Token(Fixed(Terminal::Flush)),
                Token(Fixed(Terminal::Semicolon)),
            ],
            &[
                Token(Fixed(Terminal::Print)),
                Open(Part::Expression),
                Token(Fixed(Terminal::Semicolon)),
            ],
            &[
                Token(Fixed(Terminal::Delete)),
                Token(Name),
                Token(Fixed(Terminal::Semicolon)),
            ],
            &[
                Token(Fixed(Terminal::Var)),
                Token(Name),
                Token(Fixed(Terminal::Assign)),
                Open(Part::Initializer),
            ],
            &[Token(Name), Open(Part::AfterName)],
            &[
                Token(Fixed(Terminal::If)),
                Open(Part::Expression),
                Open(Part::Block),
                Open(Part::Else),
            ],
            &[
                Token(Fixed(Terminal::While)),
                Open(Part::Expression),
                Open(Part::Block),
            ],
            &[
                Token(Fixed(Terminal::Foreach)),
                Token(Name),
                Open(Part::ForeachTail),
            ],
        ],
        Part::Initializer => &[
            &[Open(Part::Expression), Token(Fixed(Terminal::Semicolon))],
            &[
                Token(Fixed(Terminal::New)),
                Token(Name),
                Open(Part::NewKeys),
                Token(Fixed(Terminal::Semicolon)),
            ],
        ],
        Part::NewKeys => &[
            &[],
            &[
                Token(Fixed(Terminal::OpenBracket)),
                Open(Part::Expression),
                Open(Part::ExpressionTail),
            ],
        ],
        Part::AfterName => &[
            &[
                Token(Fixed(Terminal::Assign)),
                Open(Part::Expression),
                Token(Fixed(Terminal::Semicolon)),
            ],
            &[Token(Fixed(Terminal::Dot)), Open(Part::AfterDot)],
            &[
                Token(Fixed(Terminal::OpenBracket)),
                Open(Part::Expression),
                Open(Part::ExpressionTail),
                Token(Fixed(Terminal::Dot)),
                Token(Name),
                Token(Fixed(Terminal::Dot)),
                Open(Part::Change),
            ],
        ],
        Part::AfterDot => &[
            &[Open(Part::Change)],
            &[Token(Name), Token(Fixed(Terminal::Dot)), Open(Part::Change)],
        ],
        Part::Change => &[&[
            Open(Part::Operation),
            Token(Fixed(Terminal::OpenParen)),
            Open(Part::Expression),
            Token(Fixed(Terminal::CloseParen)),
            Token(Fixed(Terminal::Semicolon)),
        ]],
        Part::Operation => &[
            &[Token(Fixed(Terminal::Add))],
            &[Token(Fixed(Terminal::Set))],
            &[Token(Fixed(Terminal::SetIfEmpty))],
        ],
        Part::ForeachTail => &[
            &[Token(Fixed(Terminal::In)), Open(Part::ForeachIn)],
            &[
                Token(Fixed(Terminal::Comma)),
                Token(Name),
                Open(Part::NameTail),
            ],
        ],
        Part::ForeachIn => &[
            &[Token(Fixed(Terminal::All)), Token(Name), Open(Part::Block)],
            &[Open(Part::Entries)],
        ],
        Part::NameTail => &[
            &[Token(Fixed(Terminal::In)), Open(Part::Entries)],
            &[
                Token(Fixed(Terminal::Comma)),
                Token(Name),
                Open(Part::NameTail),
            ],
        ],
        Part::Entries => &[&[
            Token(Fixed(Terminal::Entries)),
            Token(Name),
            Token(Fixed(Terminal::Dot)),
            Token(Name),
            Open(Part::Block),
        ]],
        Part::Else => &[&[], &[Token(Fixed(Terminal::Else)), Open(Part::Block)]],
        Part::Expression => &[&[Open(Part::Conjunction), Open(Part::OrTail)]],
        Part::OrTail => &[
            &[],
            &[
                Token(Fixed(Terminal::Or)),
                Open(Part::Conjunction),
                Open(Part::OrTail),
            ],
        ],
        Part::Conjunction => &[&[Open(Part::Negation), Open(Part::AndTail)]],
        Part::AndTail => &[
            &[],
            &[
                Token(Fixed(Terminal::And)),
                Open(Part::Negation),
                Open(Part::AndTail),
            ],
        ],
        Part::Negation => &[
            &[Open(Part::Comparison)],
            &[Token(Fixed(Terminal::Not)), Open(Part::Negation)],
        ],
        Part::Comparison => &[&[Open(Part::Sum), Open(Part::ComparisonTail)]],
        Part::ComparisonTail => &[&[], &[Open(Part::Comparator), Open(Part::Sum)]],
        Part::Comparator => &[
            &[Token(Fixed(Terminal::Equal))],
            &[Token(Fixed(Terminal::NotEqual))],
            &[Token(Fixed(Terminal::Less))],
            &[Token(Fixed(Terminal::LessOrEqual))],
            &[Token(Fixed(Terminal::Greater))],
            &[Token(Fixed(Terminal::GreaterOrEqual))],
        ],
        Part::Sum => &[&[Open(Part::Term), Open(Part::SumTail)]],
        Part::SumTail => &[
            &[],
            &[
                Open(Part::SumOperator),
                Open(Part::Term),
                Open(Part::SumTail),
            ],
        ],
        Part::SumOperator => &[
            &[Token(Fixed(Terminal::Plus))],
            &[Token(Fixed(Terminal::Minus))],
            &[Token(Fixed(Terminal::Concat))],
        ],
        Part::Term => &[&[Open(Part::Factor), Open(Part::TermTail)]],
        Part::TermTail => &[
            &[],
            &[
                Open(Part::TermOperator),
                Open(Part::Factor),
                Open(Part::TermTail),
            ],
        ],
        Part::TermOperator => &[
            &[Token(Fixed(Terminal::Times))],
            &[Token(Fixed(Terminal::Divide))],
            &[Token(Fixed(Terminal::Remainder))],
        ],
        Part::Factor => &[
            &[Token(Number)],
            &[Token(Text)],
            &[Token(Fixed(Terminal::True))],
            &[Token(Fixed(Terminal::False))],
            &[Token(Fixed(Terminal::Alive)), Token(Name)],
            &[Token(Name), Open(Part::PlaceTail)],
            &[
                Token(Fixed(Terminal::OpenParen)),
                Open(Part::Expression),
                Token(Fixed(Terminal::CloseParen)),
            ],
            &[Token(Fixed(Terminal::Minus)), Open(Part::Factor)],
        ],
        Part::PlaceTail => &[
            &[],
            &[Token(Fixed(Terminal::Dot)), Token(Name)],
            &[
                Token(Fixed(Terminal::OpenBracket)),
                Open(Part::Expression),
                Open(Part::ExpressionTail),
                Token(Fixed(Terminal::Dot)),
                Token(Name),
            ],
        ],
        Part::ExpressionTail => &[
            &[Token(Fixed(Terminal::CloseBracket))],
            &[
                Token(Fixed(Terminal::Comma)),
                Open(Part::Expression),
                Open(Part::ExpressionTail),
            ],
        ],
        Part::ItemTail => &[
            &[Token(Fixed(Terminal::CloseBrace))],
            &[Open(Part::Item), Open(Part::ItemTail)],
        ],
        Part::Item => &[
            &[
                Token(Name),
                Token(Number),
                Token(Fixed(Terminal::Semicolon)),
            ],
            &[
                Token(Fixed(Terminal::Serve)),
                Token(Name),
                Open(Part::Fate),
                Token(Fixed(Terminal::Semicolon)),
            ],
        ],
        Part::Fate => &[
            &[Token(Fixed(Terminal::Pass))],
            &[Token(Fixed(Terminal::LosePush))],
            &[Token(Fixed(Terminal::LoseReply))],
            &[Token(Fixed(Terminal::Twice))],
            &[Token(Fixed(Terminal::Hold))],
        ],
    }
}
