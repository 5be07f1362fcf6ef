// The program of a checked source.
ghost use Rattle.std.specs.Prelude.{◌≡◌, ◌≤◌, ◌<◌, length, slice_get, Some};
ghost use Rattle.cloud_base.specs.Values.{most_clients};
ghost use Rattle.typed_program.specs.Programs.{IsProgram};

use crate::statement::Body;
use cloud_base::{Name, Schedule, Schema, Sequence};
use std::marker::Model;

/// What a program is made of: the names and the bodies of its clients stand in the order of the
/// source.
#[derive(Drop)]
pub struct Parts {
    pub schema: Schema,
    pub names: Sequence<Name>,
    pub bodies: Sequence<Body>,
    pub schedule: Schedule,
}

/// The program of a checked source. Contracts see its parts. Its calls take no memory.
#[derive(Drop)]
pub struct Program {
    parts: Parts,
}

impl Model for Program {
    ghost use Rattle.typed_program.specs.declared.program.Parts.{Parts};
    ghost use Rattle.typed_program.specs.Programs.{IsProgram};
    ghost use Rattle.typed_program.specs.contracts.program.Parts as p;
    ghost use Rattle.std.specs.Coded.{codes};

    ghost Value = { Parts };

    ghost coded = { Prim.hlevel (codes, p.the_row.coded) };

    ghost view = { λ p. p.parts };

    ghost invariant = { λ p. IsProgram p.parts };
}

impl Program {
    pub fn new(parts: Parts) -> Program
        requires { IsProgram parts }
        ensures { result ≡ parts }
    {
        Program { parts }
    }

    pub fn schema(&self) -> &Schema
        ensures schema { result.now ≡ self.now.schema }
        ensures program { IsProgram self.now }
    {
        &self.parts.schema
    }

    /// How many clients there are.
    pub fn clients(&self) -> usize
        ensures clients { result ≡ length self.now.names }
        ensures most { result ≤ most_clients }
    {
        self.parts.names.len()
    }

    pub fn name(&self, client: u8) -> &str
        requires { client < length self.now.names }
        ensures { slice_get self.now.names client ≡ Some result.now }
    {
        self.parts.names.as_slice()[client as usize].as_str()
    }

    pub fn schedule(&self) -> &Schedule
        ensures { result.now ≡ self.now.schedule }
    {
        &self.parts.schedule
    }

    /// The statements of a client.
    pub fn body(&self, client: u8) -> &Body
        requires { client < length self.now.names }
        ensures { slice_get self.now.bodies client ≡ Some result.now }
    {
        &self.parts.bodies.as_slice()[client as usize]
    }
}
