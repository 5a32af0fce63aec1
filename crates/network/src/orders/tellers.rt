// What an order tells.
ghost use Rattle.std.specs.Prelude.{◌≡◌, vec_len};
ghost use Rattle.network.specs.OrderSheet.{orders};
ghost use Rattle.network.specs.Permuted.{place_in};

use super::super::entries::Entry;
use super::super::permutations::Permutation;
use super::Order;

impl Order {
    // For each row of the permuted matrix, the network's row.
    pub fn rows(&self) -> &Permutation
        ensures { result.now ≡ self.now.rows }
    {
        &self.rows
    }

    // For each column of the permuted matrix, the network's column.
    pub fn columns(&self) -> &Permutation
        ensures { result.now ≡ self.now.columns }
    {
        &self.columns
    }

    // Where an entry of the network stands in the permuted matrix, if its row and its column are below n.
    pub fn place(&self, entry: Entry) -> Option<Entry>
        ensures { result ≡ place_in (vec_len self.now.rows.numbers) (orders self.now) entry }
    {
        let row = self.rows.position(entry.row)?;
        let column = self.columns.position(entry.column)?;
        Some(Entry { row, column })
    }
}
