// What comes next of each client.
ghost use Rattle.std.specs.Prelude.{◌≡◌, ◌+◌, ◌==◌, ◌≤◌, ◌<◌, [], ◌∷◌, ◌++◌, List, length, map};
ghost use Rattle.std.specs.Prelude.{take, slice_get, slice_index_or, option_copied};
ghost use Rattle.std.specs.Option.{option_to_list};
ghost use Rattle.cloud_base.specs.Values.{most_clients};
ghost use Rattle.cloud_base.specs.declared.batch.Batch.{Batch};
ghost use Rattle.batch_history.specs.Batches.{of_client, stretch_of, unjoined};
ghost use Rattle.record_diagram.specs.Steps.{base_of, is_zero, next_base, same_base};
ghost use Rattle.diagram_text.specs.Agendas.{IsAgenda, base_at, count_at};
ghost use Rattle.diagram_text.specs.Drawable.{IsDrawable};

use crate::history::Record;
use crate::pen::MOST_CLIENTS;
use cloud_base::{Batch, Tail};

// Of each client how many of its batches are joined, and the base of its next stretch.
#[derive(Drop)]
pub struct Agenda {
    pub joined: [u64; MOST_CLIENTS],
    pub bases: [Option<u64>; MOST_CLIENTS],
}

// Whether a push is its client's next round.
fn is_next(sent: &Batch, joined: u64) -> bool
    ensures { result ≡ (sent.now.round == joined + 1) }
{
    sent.round != 0 && sent.round - 1 == joined
}

/// The push that the record doesn't have, where so many of its client's batches are joined.
pub fn unjoined(tail: &Tail, joined: u64) -> Option<&Batch>
    ensures { (own : List Batch) → length own ≡ joined
        → option_to_list (option_copied result) ≡ unjoined own tail.entry.now.sent }
{
    match &tail.sent {
        Some(sent) if is_next(sent, joined) => Some(sent),
        _ => None,
    }
}

// The base of a client's stretch behind its batches.
fn base_left(tail: &Tail, joined: u64) -> Option<u64>
    ensures { (own : List Batch) → length own ≡ joined
        → result ≡ base_of (slice_get
        (map stretch_of (unjoined own tail.entry.now.sent) ++ tail.entry.now.now ∷ []) 0) }
{
    match unjoined(tail, joined) {
        Some(sent) => Some(sent.base),
        None => tail.now.base,
    }
}

// The base of the client's next stretch, where these batches are left.
fn next_base(left: &[Batch], joined: u64, tail: &Tail, client: u8) -> Option<u64>
    ensures { (batches front : List Batch) → batches ≡ front ++ left.now
        → joined ≡ length (of_client client front)
        → result ≡ next_base batches front tail.entry.now client }
{
    for batch in left {
        if batch.client == client {
            return Some(batch.base);
        }
    }
    base_left(tail, joined)
}

impl Agenda {
    // Before the first batch.
    pub fn new(history: &Record) -> Agenda
        requires { IsDrawable history.now }
        ensures { IsAgenda history.now.batches history.now.tails [] result }
    {
        let mut agenda = Agenda {
            joined: [0; MOST_CLIENTS],
            bases: [None; MOST_CLIENTS],
        };
        let batches = history.batches.as_slice();
        for (client, tail) in history.tails.as_slice().iter().enumerate() {
            agenda.bases[client] = next_base(batches, 0, tail, client as u8);
        }
        agenda
    }

    // How many batches of the client are joined.
    pub fn joined(&self, client: u8) -> u64
        requires { client < most_clients }
        ensures { result ≡ count_at self.now client }
    {
        self.joined[usize::from(client)]
    }

    // Whether the client's next stretch is its first.
    pub fn is_opening(&self, client: u8) -> bool
        requires { client < most_clients }
        ensures { result ≡ is_zero (count_at self.now client) }
    {
        self.joined[usize::from(client)] == 0
    }

    // Whether the client's next stretch has so many batches as its base.
    pub fn is_due(&self, client: u8, joined: usize) -> bool
        requires { client < most_clients }
        ensures { result ≡ same_base joined (base_at self.now client) }
    {
        match self.bases[usize::from(client)] {
            Some(base) => base == joined as u64,
            None => false,
        }
    }

    // The batch at a place is joined.
    pub fn join(&mut self, history: &Record, place: usize)
        requires drawable { IsDrawable history.now }
        requires within { place < length history.now.batches }
        requires agenda { IsAgenda history.now.batches history.now.tails
            (take place history.now.batches) self.old }
        ensures { IsAgenda history.now.batches history.now.tails
            (take (place + 1) history.now.batches) self.new }
    {
        let batches = history.batches.as_slice();
        let client = batches[place].client;
        let slot = usize::from(client);
        let joined = self.joined[slot] + 1;
        let tail = &history.tails.as_slice()[slot];
        self.joined[slot] = joined;
        self.bases[slot] = next_base(&batches[place + 1..], joined, tail, client);
    }
}
