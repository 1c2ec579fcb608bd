use crate::part::Part;
use kc_base::Text;
use kc_expr::Value;
use kc_obj_module::Taken;

/// A name that the module gives, with its value.
#[derive(Drop)]
pub struct Public {
    pub name: Text,
    pub value: Value,
}

/// What a source says before its module is made. The first three parts are the relocatable registers, code and data, which
/// values have as their bases 0, 1 and 2; the others are the absolute ones, in their order. The stack is in bytes. The
/// externals are in the order of their declaration, and values have their indices; the public names are in any order.
#[derive(Drop)]
pub struct UnlinkedModule {
    pub name: Text,
    pub parts: Vec<Part>,
    pub stack: u16,
    pub externals: Vec<Taken>,
    pub publics: Vec<Public>,
}
