// What alternatives are matched on.
use alf::Rules;

// The tree that the tests' operands are parts of, and the states of names, row after row, as the rules read them.
#[derive(Clone, Copy)]
pub struct Scene<'a> {
    pub rules: Rules,
    pub tree: &'a [u8],
    pub names: usize,
    pub states: &'a [u8],
}
