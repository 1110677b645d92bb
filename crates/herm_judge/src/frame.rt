//! What the tests of a statement know.
use herm_base::TypeNo;
use herm_types::TypeTable;

/// The types and exceptions; the types of the process's variables, the port first; the types of the ports of the
/// program's processes. The number of a type that is not known is that behind the last one.
#[derive(Clone, Copy)]
pub struct Frame<'a> {
    pub types: &'a TypeTable,
    pub of: &'a [TypeNo],
    pub ports: &'a [TypeNo],
}
