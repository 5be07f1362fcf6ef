// Reading clients and programs.
ghost use Rattle.std.specs.Prelude.{◌≡◌, [], ◌∷◌, length, option_map, IfOk};
ghost use Rattle.source_tokens.specs.Scans.{tokens_of};
ghost use Rattle.source_reader.specs.Sources.{body_of, client_by, clients_by, program_at, ended};

use crate::declaration::schema_at;
use crate::schedule::schedule_at;
use crate::statement::block_at;
use crate::token::{behind, name_at};
use cloud_base::{Memory, Sequence};
use source_tokens::{Placed, Terminal};
use source_tree::{Client, Program, Statement};
use sqlite_items::Items;
use std::alloc::Global;

#[tactic(auto, unfolding(crate::specs::Sources::body_of))]
fn body_of<'a>(
    alloc: Global,
    depth: usize,
    high: u32,
    tokens: &'a [Placed],
) -> Result<Option<(Items<Statement>, &'a [Placed])>, Memory>
    ensures { IfOk result (λ found. option_map (λ f. (f.0, tokens_of f.1.now)) found
        ≡ body_of depth high (tokens_of tokens.now)) }
{
    let Some((body, _, rest)) = block_at(alloc, depth, high, tokens)? else {
        return Ok(None);
    };
    Ok(Some((body, rest)))
}

#[tactic(auto, unfolding(crate::specs::Sources::client_by))]
fn client_at<'a>(
    alloc: Global,
    depth: usize,
    high: u32,
    tokens: &'a [Placed],
) -> Result<Option<(Client, &'a [Placed])>, Memory>
    ensures { IfOk result (λ found. option_map (λ f. (f.0, tokens_of f.1.now)) found
        ≡ client_by (body_of depth high) (tokens_of tokens.now)) }
{
    let Some((name, rest)) = name_at(tokens) else {
        return Ok(None);
    };
    let Some((body, rest)) = body_of(alloc, depth, high, rest)? else {
        return Ok(None);
    };
    let name = name.copy(alloc)?;
    Ok(Some((Client { name, body }, rest)))
}

// Further clients behind those that are there.
#[tactic(auto, using(crate::proofs::Loop::clients), unfolding(crate::specs::Sources::clients_by))]
fn clients_at<'a>(
    alloc: Global,
    depth: usize,
    high: u32,
    clients: Sequence<Client>,
    tokens: &'a [Placed],
) -> Result<Option<(Sequence<Client>, &'a [Placed])>, Memory>
    ensures { IfOk result (λ found. option_map (λ f. (f.0, tokens_of f.1.now)) found
        ≡ clients_by (length (tokens_of tokens.now)) (body_of depth high) clients
        (tokens_of tokens.now)) }
{
    let mut clients = clients;
    let mut rest = tokens;
    for _turn in 0..tokens.len() {
        let Some(after) = behind(rest, Terminal::Client) else {
            return Ok(Some((clients, rest)));
        };
        let Some((client, after)) = client_at(alloc, depth, high, after)? else {
            return Ok(None);
        };
        clients.push(client)?;
        rest = after;
    }
    Ok(Some((clients, rest)))
}

/// The program whose tokens these are, where its bodies aren't too high.
#[tactic(auto, unfolding(crate::specs::Sources::program_at, crate::specs::Sources::ended))]
pub fn program_at(
    alloc: Global,
    depth: usize,
    high: u32,
    tokens: &[Placed],
) -> Result<Option<Program>, Memory>
    ensures { IfOk result (λ found. found ≡ program_at depth high (tokens_of tokens.now)) }
{
    let Some((declarations, rest)) = schema_at(alloc, tokens)? else {
        return Ok(None);
    };
    let Some(rest) = behind(rest, Terminal::Client) else {
        return Ok(None);
    };
    let Some((first, rest)) = client_at(alloc, depth, high, rest)? else {
        return Ok(None);
    };
    let mut clients = Sequence::new(alloc);
    clients.push(first)?;
    let Some((clients, rest)) = clients_at(alloc, depth, high, clients, rest)? else {
        return Ok(None);
    };
    let Some((schedule, rest)) = schedule_at(alloc, rest)? else {
        return Ok(None);
    };
    if !rest.is_empty() {
        return Ok(None);
    }
    Ok(Some(Program {
        declarations,
        clients,
        schedule,
    }))
}
