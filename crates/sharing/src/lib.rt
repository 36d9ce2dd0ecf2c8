// How many free columns at cost 0 share a row with a column.
#![tactic(auto)]

ghost use Rattle.std.specs.Prelude.{◌≡◌, ◌≤◌, length};
ghost use Rattle.node.specs.Stored.{matrix_in, HasBody, Columns};
ghost use Rattle.candidates.specs.Row.{zero_in};
ghost use Rattle.sharing.specs.Sharing.{Counted, sharing_in};

use candidates::is_zero;
use node::row_part;

// Marks the free columns of a row at cost 0 as seen, and counts those that were not.
fn mark_row(cost: &[u32; 256], column: &[u8; 256], row: &[u16], seen: &mut [u8; 256]) -> u32
    requires { Columns row.now × (length row.now ≤ 4096) × (length seen.old ≡ 256) }
    ensures { Counted (zero_in cost.now column.now) row.now seen.old seen.new result }
{
    let mut count = 0;
    for &j in row {
        let j = usize::from(j);
        if is_zero(column[j], cost[j]) && seen[j] == 0 {
            seen[j] = 1;
            count += 1;
        }
    }
    count
}

// How many free columns at cost 0 cover one of the rows of a body, each counted once.
pub fn count_sharing(cost: &[u32; 256], column: &[u8; 256], matrix: &[u16], body: &[u16]) -> u32
    requires { HasBody matrix.now body.now }
    ensures { result ≡ sharing_in (matrix_in matrix.now) (zero_in cost.now column.now) body.now }
{
    let mut seen = [0u8; 256];
    let mut count = 0;
    for &r in body {
        let row = row_part(matrix, usize::from(r) - 1);
        count += mark_row(cost, column, row, &mut seen);
    }
    count
}
