// Machines.
ghost use Rattle.std.specs.Prelude.{◌≡◌, ◌<◌, ◌^◌, ◌++◌, ℕ, List, [], ◌∷◌, IfOk, OnOk};
ghost use Rattle.cloud_base.specs.Values.{most_clients};
ghost use Rattle.cloud_base.specs.Shaped.{IsShapedAnswer};
ghost use Rattle.cloud_base.specs.declared.update.Answer.{Answer};
ghost use Rattle.cloud_base.specs.declared.update.Event.{Event};
ghost use Rattle.cloud_base.specs.declared.update.Query.{Query};
ghost use Rattle.code_machine.specs.Machine.{CanAnswer, CanGoOn, Settled, Stands, Waits, IsNeeded};
ghost use Rattle.code_machine.specs.Machine.{IsShapedNeed, ids_created};

use crate::need::Need;
use crate::state::State;
use cloud_base::{Answer, Memory};
use plain_vm::Code;
use std::alloc::Global;

/// A machine that runs a code up to its next need. Each instruction costs the same, however long
/// the code and the run are; `answer` takes no memory.
#[derive(Drop)]
pub struct Machine<'a> {
    code: &'a Code,
    state: State,
    given: Option<Answer>,
}

impl<'a> Machine<'a> {
    /// The machine of a client, at the first place.
    pub fn new(alloc: Global, code: &'a Code, client: u8) -> Result<Machine<'a>, Memory>
        requires { client < most_clients }
        ensures code { IfOk result (λ machine. machine.code.now ≡ code.now) }
        ensures stands { IfOk result (λ machine. Stands machine client [] []) }
    {
        let _valid = code.instructions();
        Ok(Machine {
            code,
            state: State::new(alloc, client)?,
            given: None,
        })
    }

    // Goes on with the answer that was given.
    fn settle(&mut self) -> Result<(), Memory>
        ensures code { self.new.code.now ≡ self.old.code.now }
        ensures settled { OnOk result (Settled self.old self.new) }
    {
        match self.given.take() {
            Some(answer) => self.state.take_answer(answer),
            None => Ok(()),
        }
    }

    /// Goes on up to the next need. After an end it gives that end again. A machine for which
    /// memory was wanting has no use any more.
    pub fn next(&mut self) -> Result<Need, Memory>
        requires stands { CanGoOn self.old }
        requires ids { ids_created self.old < 2 ^ 32 }
        ensures code { self.new.code.now ≡ self.old.code.now }
        ensures needed { IfOk result (λ need. (client : ℕ) (answers : List Answer)
            (events : List Event) → Stands self.old client answers events →
            IsNeeded need self.new client answers events) }
        ensures shaped { IfOk result (IsShapedNeed self.old.code.now.schema) }
    {
        self.settle()?;
        self.state.run_on(self.code)
    }

    /// Answers the query that was needed last.
    pub fn answer(&mut self, answer: Answer)
        requires { CanAnswer self.old answer }
        ensures code { self.new.code.now ≡ self.old.code.now }
        ensures stands { (query : Query) (client : ℕ) (answers : List Answer)
            (events : List Event) → Waits self.old query client answers events →
            IsShapedAnswer self.old.code.now.schema query answer →
            Stands self.new client (answers ++ answer ∷ [])
            (events ++ Event.Ask query answer ∷ []) }
    {
        self.given = Some(answer);
    }
}
