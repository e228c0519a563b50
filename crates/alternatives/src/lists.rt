// Alternatives in lists.

// Steps of each alternative, tests of each step, and for each test its edge's number and its operand's end.
#[derive(Clone, Copy)]
pub struct Lists<'a> {
    pub steps: &'a [u8],
    pub tests: &'a [u8],
    pub edges: &'a [u8],
    pub operands: &'a [u16],
}
