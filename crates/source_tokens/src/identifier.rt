// Names that are no reserved words.
ghost use Rattle.std.specs.Prelude.{◌≡◌, IfOk};
ghost use Rattle.source_tokens.specs.Terminals.{IsIdentifier};

use cloud_base::{Memory, Name};
use std::alloc::Global;
use std::marker::Model;

/// What a name token holds: a name that is no reserved word. Contracts see its bytes.
#[derive(Debug, Drop)]
pub struct Identifier {
    name: Name,
}

impl Model for Identifier {
    ghost use Rattle.std.specs.Prelude.{ℕ, List};
    ghost use Rattle.std.specs.Coded.{coded_list, coded_ℕ};
    ghost use Rattle.source_tokens.specs.Terminals.{IsIdentifier};

    ghost Value = { List ℕ };

    ghost coded = { coded_list coded_ℕ };

    ghost view = { λ i. i.name };

    ghost invariant = { λ i. IsIdentifier i.name };
}

impl Identifier {
    pub(crate) fn new(alloc: Global, bytes: &[u8]) -> Result<Identifier, Memory>
        requires { IsIdentifier bytes.now }
        ensures { IfOk result (λ identifier. identifier ≡ bytes.now) }
    {
        Ok(Identifier {
            name: Name::new(alloc, bytes)?,
        })
    }

    pub fn name(&self) -> &Name
        ensures name { result.now ≡ self.now }
        ensures identifier { IsIdentifier self.now }
    {
        &self.name
    }

    pub fn into_name(self) -> Name
        ensures name { result ≡ self }
        ensures identifier { IsIdentifier self }
    {
        let Identifier { name } = self;
        name
    }

    /// The same identifier.
    pub fn copy(&self, alloc: Global) -> Result<Identifier, Memory>
        ensures copy { IfOk result (λ identifier. identifier ≡ self.now) }
        ensures identifier { IsIdentifier self.now }
    {
        Ok(Identifier {
            name: self.name.copy(alloc)?,
        })
    }
}
