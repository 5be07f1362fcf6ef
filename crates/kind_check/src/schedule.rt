// The schedule of a source.
ghost use Rattle.std.specs.Prelude.{◌≡◌, ◌≤◌, ◌<◌, ◌^◌, ◌∷◌, [], None, length};
ghost use Rattle.std.specs.Prelude.{map, sum, MatchResult};
ghost use Rattle.std.specs.Prelude.{IfSome};
ghost use Rattle.std.specs.Str.{bytes_eq};
ghost use Rattle.cloud_base.specs.Values.{most_clients};
ghost use Rattle.source_tree.specs.Limits.{most_steps, steps_in};
ghost use Rattle.kind_bodies.specs.declared.fault.KindFault.TheVariants as fault;
ghost use Rattle.kind_rules.specs.Answers.{first_fault};
ghost use Rattle.kind_rules.specs.Names.{first_place};
ghost use Rattle.kind_rules.specs.Programs.{at_lines, client_names, item_name, items_in};
ghost use Rattle.kind_rules.specs.Programs.{client_number as number_of, turn_rules, typed_item};
ghost use Rattle.kind_check.specs.Faults.{TellsFault};

use cloud_base::{Name, Schedule, ScheduleItem, Sequence};
use kind_bodies::{KindFault, first_line, next_lines};
use source_tree::{Client, Item};
use std::alloc::Global;

const WHOSE_TURN: u8 = 11;

/// The items of a schedule, none where there is no schedule.
pub fn items_in(schedule: &Option<Sequence<Item>>) -> &[Item]
    ensures { result.now ≡ items_in schedule.now }
{
    match schedule {
        Some(items) => items.as_slice(),
        None => &[],
    }
}

fn name_of(item: &Item) -> &Name
    ensures { result.now ≡ item_name item.now }
{
    match item {
        Item::Steps(name, _) | Item::Serve(name, _) => name.name(),
    }
}

fn client_number(clients: &[Client], name: &Name) -> Option<u8>
    requires { length clients.now ≤ most_clients }
    ensures { result ≡ first_place (λ x. bytes_eq x name.now) (client_names clients.now) }
{
    as_client(
        clients
            .iter()
            .position(|client| *client.name.name() == *name),
    )
}

fn as_client(place: Option<usize>) -> Option<u8>
    requires { IfSome place (λ n. n < 2 ^ 8) }
    ensures { result ≡ place }
{
    match place {
        Some(place) => Some(place as u8),
        None => None,
    }
}

fn client_of(clients: &[Client], item: &Item, line: u32) -> Result<u8, KindFault>
    requires { length clients.now ≤ most_clients }
    ensures { let names = client_names clients.now in
        MatchResult result
        (λ n. (turn_rules names item.now ≡ []) × (n ≡ number_of names (item_name item.now)))
        (λ e. (turn_rules names item.now ≡ 11 ∷ []) × (e ≡ fault.Rule 11 line)) }
{
    match client_number(clients, name_of(item)) {
        Some(client) => Ok(client),
        None => Err(KindFault::Rule {
            rule: WHOSE_TURN,
            line,
        }),
    }
}

fn check_turn(clients: &[Client], item: &Item, line: u32) -> Result<ScheduleItem, KindFault>
    requires clients { length clients.now ≤ most_clients }
    requires steps { steps_in item.now ≤ most_steps }
    ensures { let names = client_names clients.now in
        MatchResult result
        (λ t. (turn_rules names item.now ≡ []) × (t ≡ typed_item names item.now))
        (λ e. (turn_rules names item.now ≡ 11 ∷ []) × (e ≡ fault.Rule 11 line)) }
{
    let client = client_of(clients, item, line)?;
    Ok(match item {
        Item::Steps(_, count) => ScheduleItem::Steps {
            client,
            count: *count as u32,
        },
        Item::Serve(_, fate) => ScheduleItem::Serve {
            client,
            fate: *fate,
        },
    })
}

/// The typed items of a schedule.
pub fn check_schedule(
    alloc: Global,
    clients: &[Client],
    items: &[Item],
    lines: &[usize],
) -> Result<Schedule, KindFault>
    requires clients { length clients.now ≤ most_clients }
    requires steps { sum (map steps_in items.now) ≤ most_steps }
    ensures { let names = client_names clients.now in
        let found = at_lines lines.now (map (turn_rules names) items.now) in
        MatchResult result
        (λ s. (first_fault found ≡ None) × (s ≡ map (typed_item names) items.now))
        (λ fault. TellsFault found fault) }
{
    let mut schedule = Sequence::new(alloc);
    let mut rest = lines;
    for item in items {
        schedule.push(check_turn(clients, item, first_line(rest))?)?;
        rest = next_lines(rest);
    }
    Ok(schedule)
}
