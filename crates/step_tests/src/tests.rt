// One test, into the lists of edges and operands.
ghost use Rattle.step_tests.specs.Steps.{Fits, OnePut};

// One test, its edge's number and its operand's end, at place `from`; the place behind it.
pub fn put_test(
    edge: u8,
    place: usize,
    edges: &mut [u8],
    operands: &mut [u16],
    from: usize,
) -> usize
    requires { Fits place edges.old operands.old from }
    ensures { OnePut edge place from edges.old operands.old result edges.new
        operands.new }
{
    edges[from] = edge;
    operands[from] = place as u16;
    from + 1
}
