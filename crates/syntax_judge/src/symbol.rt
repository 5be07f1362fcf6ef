// The symbols of the grammar.
use crate::kind::Kind;

/// A part of a program. One whose name ends in `Tail` is what may follow, with its closer where it
/// has one.
#[derive(Clone, Copy, Debug, PartialEq, Eq)]
pub enum Part {
    Program,
    DeclarationTail,
    Declaration,
    EntityKeys,
    Key,
    KeyType,
    KeyTail,
    Properties,
    PropertiesInside,
    PropertyTail,
    Property,
    CellType,
    Client,
    ClientTail,
    Block,
    StatementTail,
    Statement,
    Initializer,
    NewKeys,
    AfterName,
    AfterDot,
    Change,
    Operation,
    ForeachTail,
    ForeachIn,
    NameTail,
    Entries,
    Else,
    Expression,
    OrTail,
    Conjunction,
    AndTail,
    Negation,
    Comparison,
    ComparisonTail,
    Comparator,
    Sum,
    SumTail,
    SumOperator,
    Term,
    TermTail,
    TermOperator,
    Factor,
    PlaceTail,
    ExpressionTail,
    ItemTail,
    Item,
    Fate,
}

/// A token, or a part that is still open.
#[derive(Clone, Copy, Debug)]
pub enum Symbol {
    Token(Kind),
    Open(Part),
}
