// Which constructs are scopes.
ghost use Rattle.std.specs.Prelude.{◌≡◌};
ghost use Rattle.gier_pass5.specs.Marks.{has_scope};

use gier_tree::Construct;

/// Whether declarations within the construct are its own.
pub(crate) fn is_scope(construct: Construct) -> bool
    ensures { result ≡ has_scope construct }
{
    match construct {
        Construct::Program | Construct::Block => true,
        Construct::ProcedureDeclaration | Construct::ControlledStatement => true,
        _ => false,
    }
}
