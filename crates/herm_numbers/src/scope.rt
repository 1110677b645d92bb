//! What is known where a statement stands.
ghost use Rattle.std.specs.Prelude.{◌≡◌};

use crate::index::Names;
use herm_base::TypeNo;
use herm_types::TypeTable;

/// The types, and the names of the parts of each; the exceptions by name; the variables of the process by name, the port first, and their types; the processes of the
/// program by name, and the types of their ports. The number of a type that is not known is that behind the last one.
#[derive(Drop)]
pub struct Scope<'a> {
    pub types: &'a TypeTable,
    pub parts: &'a [Names],
    pub exceptions: &'a Names,
    pub variables: Names,
    pub of: Vec<TypeNo>,
    pub processes: &'a Names,
    pub ports: &'a [TypeNo],
    ghost named: { parts.now ≡ types.now.parts },
}
