// The root node of a matrix.
#![tactic(auto)]

ghost use Rattle.std.specs.Prelude.{◌≡◌};
ghost use Rattle.node.specs.Node.{root};
ghost use Rattle.node.specs.Stored.{matrix_in, Kept};

use node::{Node, column_count, row_count};

// The root: all rows open, all columns free at the given costs, and bound 0.
pub fn root_node(matrix: &[u16], costs: [u32; 256]) -> Node
    requires { Kept matrix.now }
    ensures { result ≡ root (matrix_in matrix.now) costs }
{
    let mut column = [0u8; 256];
    column[..column_count(matrix)].fill(1);
    let mut row = [0u8; 64];
    row[..row_count(matrix)].fill(1);
    Node {
        cost: costs,
        column,
        row,
        bound: 0,
    }
}
