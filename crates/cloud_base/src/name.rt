// The names that a source gives.
ghost use Rattle.std.specs.Prelude.{◌≡◌, IfOk, nat_eq};
ghost use Rattle.std.specs.Cmp.{nat_eq_equiv, partial_equiv_from_equiv};
ghost use Rattle.std.specs.Cmp.Lexicographic.{pointwise, lists_per, lists_equiv};
ghost use Rattle.cloud_base.specs.Values.{IsName};

use crate::memory::Memory;
use std::alloc::Global;
use std::marker::Model;

/// A name of a source: a letter or `_`, and then letters, digits and `_`. Contracts see its bytes.
#[derive(Debug, Drop)]
pub struct Name {
    text: String,
}

impl Model for Name {
    ghost use Rattle.std.specs.Prelude.{ℕ, List, string_bytes};
    ghost use Rattle.std.specs.Coded.{coded_list, coded_ℕ};
    ghost use Rattle.cloud_base.specs.Values.{IsName};

    ghost Value = { List ℕ };

    ghost coded = { coded_list coded_ℕ };

    ghost view = { λ n. string_bytes n.text };

    ghost invariant = { λ n. IsName (string_bytes n.text) };
}

impl PartialEq for Name {
    ghost eq = { pointwise nat_eq };

    ghost laws = { lists_per (partial_equiv_from_equiv nat_eq_equiv) };

    fn eq(&self, other: &Name) -> bool {
        self.text.as_str() == other.text.as_str()
    }
}

impl Eq for Name {
    ghost laws = { lists_equiv nat_eq_equiv };
}

impl Name {
    pub fn new(alloc: Global, bytes: &[u8]) -> Result<Name, Memory>
        requires { IsName bytes.now }
        ensures { IfOk result (λ name. name ≡ bytes.now) }
    {
        let Ok(text) = str::from_utf8(bytes) else {
            unreachable!()
        };
        Ok(Name {
            text: String::from_str(alloc, text)?,
        })
    }

    /// The same name.
    pub fn copy(&self, alloc: Global) -> Result<Name, Memory>
        ensures copy { IfOk result (λ name. name ≡ self.now) }
        ensures name { IsName self.now }
    {
        // This opens `self`, so that the proof learns that its bytes are a name.
        let _ = &self.text;
        Name::new(alloc, self.text.as_str().as_bytes())
    }

    pub fn as_str(&self) -> &str
        ensures text { result.now ≡ self.now }
        ensures name { IsName self.now }
    {
        self.text.as_str()
    }
}

#[cfg(test)]
mod tests {
    use super::*;
    use std::test::Fail;

    #[test]
    fn a_name_is_its_bytes(rt: HostRuntime) -> Result<(), Fail> {
        let name = Name::new(rt.alloc(), b"_Grocery1")?;
        assert_eq!(rt; name.copy(rt.alloc())?.as_str(), "_Grocery1");
        Ok(())
    }
}
