// Names that stand twice.
ghost use Rattle.std.specs.Prelude.{◌≡◌};
ghost use Rattle.kind_rules.specs.Names.{is_among as among, is_repeated as repeated};

use cloud_base::Name;
use source_tokens::Identifier;

/// Whether a name is one of those.
pub fn is_among(name: &Name, names: &[Identifier]) -> bool
    ensures { result ≡ among name.now names.now }
{
    names.iter().any(|other| *other.name() == *name)
}

/// Whether one of the names stands there twice.
pub fn is_repeated(names: &[Identifier]) -> bool
    ensures { result ≡ repeated names.now }
{
    let mut rest = names;
    while let [name, others @ ..] = rest {
        if is_among(name.name(), others) {
            return true;
        }
        rest = others;
    }
    false
}
