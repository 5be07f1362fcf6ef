// What holds of every compiled body.
ghost use Rattle.std.specs.Prelude.{List};
ghost use Rattle.cloud_base.specs.Shaped.{IsSchema};
ghost use Rattle.cloud_base.specs.declared.schema.Schema.{Schema};
ghost use Rattle.typed_program.specs.Kinds.{IsBody};
ghost use Rattle.typed_program.specs.declared.statement.Statement.{Statement};
ghost use Rattle.plain_vm.specs.Valid.{IsCode};
ghost use Rattle.code_gen.specs.Compile.{code_of};
ghost use Rattle.code_gen.specs.Meaning.{Means};

/// The code of a well-kinded body asks, does and ends as the body does, whatever it is answered.
pub fn codes_mean_bodies()
    ensures { (schema : Schema) (body : List Statement) → IsSchema schema → IsBody schema body →
        Means schema (code_of schema body) body }
{}

/// The code of a well-kinded body is valid.
pub fn codes_are_valid()
    ensures { (schema : Schema) (body : List Statement) → IsSchema schema → IsBody schema body →
        IsCode schema (code_of schema body) }
{}
