// The lines of the items of a source.
ghost use Rattle.std.specs.Prelude.{◌≡◌, ◌∷◌, ◌++◌, ◌||◌, List, [], length, IfOk, OnOk};
ghost use Rattle.std.specs.Prelude.{MatchOption};
ghost use Rattle.source_tokens.specs.Scans.{tokens_of};
ghost use Rattle.source_tokens.specs.declared.token.Placed.{Placed};
ghost use Rattle.source_tree.specs.declared.program.Program.{Program};
ghost use Rattle.source_tree.specs.Items.{program_items};
ghost use Rattle.source_tree.specs.Programs.{SpellsProgram};
ghost use Rattle.source_reader.specs.Lines.{is_client, declares, opens, passes, begins, noted};
ghost use Rattle.source_reader.specs.Lines.{item_lines};

use cloud_base::{Memory, Sequence};
use source_tokens::{Placed, Terminal, Token};
use std::alloc::Global;

fn is_client(token: &Token) -> bool
    ensures { result ≡ is_client token.now }
{
    matches!(token, Token::Fixed(Terminal::Client))
}

fn declares(token: &Token) -> bool
    ensures { result ≡ declares token.now }
{
    matches!(
        token,
        Token::Fixed(Terminal::Global | Terminal::Array | Terminal::Entity | Terminal::Client)
    )
}

fn opens(token: &Token) -> bool
    ensures { result ≡ opens token.now }
{
    matches!(
        token,
        Token::Fixed(Terminal::OpenBrace | Terminal::Semicolon | Terminal::CloseBrace)
    )
}

fn passes(token: &Token) -> bool
    ensures { result ≡ passes token.now }
{
    matches!(
        token,
        Token::Fixed(Terminal::CloseBrace | Terminal::Else | Terminal::Schedule)
    )
}

fn begins(inside: bool, opened: bool, token: &Token) -> bool
    ensures { result ≡ begins inside opened token.now }
{
    declares(token) || (inside && opened && !passes(token))
}

// A line is noted where an item begins.
fn note(lines: &mut Sequence<usize>, begins: bool, line: usize) -> Result<(), Memory>
    ensures { OnOk result (lines.new ≡ lines.old ++ noted begins line) }
{
    if begins {
        lines.push(line)?;
    }
    Ok(())
}

fn is_inside(inside: bool, token: &Token) -> bool
    ensures { result ≡ (inside || is_client token.now) }
{
    inside || is_client(token)
}

fn first_placed(tokens: &[Placed]) -> Option<(&Placed, &[Placed])>
    ensures { MatchOption result (tokens.now ≡ []) (λ f. tokens.now ≡ f.0.now ∷ f.1.now) }
{
    tokens.split_first()
}

/// The line of the first token of each item, in order.
#[tactic(auto, using(crate::proofs::ItemLines::lines_next, crate::proofs::ItemLines::lines_last))]
pub fn item_lines(alloc: Global, tokens: &[Placed]) -> Result<Sequence<usize>, Memory>
    ensures { IfOk result (λ lines. lines ≡ item_lines tokens.now) }
{
    let mut lines = Sequence::new(alloc);
    let mut inside = false;
    let mut opened = false;
    let mut rest = tokens;
    while let Some((placed, after)) = first_placed(rest) {
        let item = begins(inside, opened, &placed.token);
        note(&mut lines, item, placed.line)?;
        inside = is_inside(inside, &placed.token);
        opened = opens(&placed.token);
        rest = after;
    }
    Ok(lines)
}

/// There is one line for each item.
pub fn one_line_an_item()
    ensures { (p : Program) (tokens : List Placed) → SpellsProgram p (tokens_of tokens) →
        length (item_lines tokens) ≡ program_items p }
{}
