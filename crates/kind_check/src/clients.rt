// The clients of a source.
ghost use Rattle.std.specs.Prelude.{◌≡◌, ◌∷◌, [], None, IfOk, MatchResult};
ghost use Rattle.std.specs.List.{AllByRecursion, flat_map};
ghost use Rattle.source_tree.specs.Words.{client_words};
ghost use Rattle.kind_rules.specs.Answers.{first_fault};
ghost use Rattle.kind_rules.specs.Names.{is_among};
ghost use Rattle.kind_rules.specs.Programs.{client_item, client_names as names_of, settle_clients};
ghost use Rattle.kind_rules.specs.Statements.{next_lines as behind, settle_block};
ghost use Rattle.kind_rules.specs.Words.{IsFitWord};
ghost use Rattle.kind_check.specs.Faults.{TellsFault};

use cloud_base::{Memory, Name, Sequence};
use kind_bodies::{KindFault, check_body, first_line, next_lines};
use kind_names::Declared;
use source_tree::Client;
use std::alloc::Global;
use typed_program::Body;

const NAMES_ARE_TAKEN: u8 = 1;

fn is_client(name: &Name, clients: &[Client]) -> bool
    ensures { result ≡ is_among name.now (names_of clients.now) }
{
    clients.iter().any(|client| *client.name.name() == *name)
}

fn check_client<'a>(
    alloc: Global,
    declared: &Declared,
    earlier: &[Client],
    client: &Client,
    lines: &'a [usize],
) -> Result<(Body, &'a [usize]), KindFault>
    requires { AllByRecursion IsFitWord (client_words client.now) }
    ensures { let item = client_item (names_of earlier.now) client.now lines.now in
        let w = settle_block declared.now client.now.body [] (behind lines.now) in
        MatchResult result
        (λ r. (first_fault (item ∷ w.items) ≡ None) × (r.0 ≡ w.typed) × (r.1.now ≡ w.lines))
        (λ fault. TellsFault (item ∷ w.items) fault) }
{
    if is_client(client.name.name(), earlier) {
        return Err(KindFault::Rule {
            rule: NAMES_ARE_TAKEN,
            line: first_line(lines),
        });
    }
    check_body(alloc, declared, &client.body, next_lines(lines))
}

/// The typed bodies of clients, and the lines of the items behind them.
pub fn check_clients<'a>(
    alloc: Global,
    declared: &Declared,
    clients: &[Client],
    lines: &'a [usize],
) -> Result<(Sequence<Body>, &'a [usize]), KindFault>
    requires { AllByRecursion IsFitWord (flat_map client_words clients.now) }
    ensures { let b = settle_clients declared.now [] clients.now lines.now in
        MatchResult result
        (λ r. (first_fault b.items ≡ None) × (r.0 ≡ b.typed) × (r.1.now ≡ b.lines))
        (λ fault. TellsFault b.items fault) }
{
    let mut bodies = Sequence::new(alloc);
    let mut rest = lines;
    for (place, client) in clients.iter().enumerate() {
        let earlier = &clients[..place];
        let (body, behind) = check_client(alloc, declared, earlier, client, rest)?;
        bodies.push(body)?;
        rest = behind;
    }
    Ok((bodies, rest))
}

/// The names of clients.
pub fn client_names(alloc: Global, clients: &[Client]) -> Result<Sequence<Name>, Memory>
    ensures { IfOk result (λ names. names ≡ names_of clients.now) }
{
    let mut names = Sequence::new(alloc);
    for client in clients {
        names.push(client.name.name().copy(alloc)?)?;
    }
    Ok(names)
}
