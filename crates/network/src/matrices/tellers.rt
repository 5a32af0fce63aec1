// What the permuted matrix tells.
ghost use Rattle.std.specs.Prelude.{◌≡◌, ◌+◌, ◌*◌, ◌<◌, true, length, MatchResult, slice_set};
ghost use Rattle.network.specs.NetworkSheet.{pattern};
ghost use Rattle.network.specs.OrderSheet.{orders};
ghost use Rattle.network.specs.Permuted.{place_told, marks_of};
ghost use Rattle.refusals.specs.declared.Refusal.TheVariants.{OutOfMemory};

use super::super::entries::Entry;
use super::super::networks::Network;
use super::super::orders::Order;
use super::Permuted;
use refusals::Refusal;
use std::alloc::Global;

// n stands beside the marks: a type for both would be made and taken apart within one call.
fn mark(marks: &mut [bool], n: usize, place: Entry)
    requires { place.row * n + place.column < length marks.old }
    ensures { marks.new ≡ slice_set marks.old (place.row * n + place.column) true }
{
    marks[usize::from(place.row) * n + usize::from(place.column)] = true;
}

impl Permuted {
    pub fn network(&self) -> &Network
        ensures { result.now ≡ self.now.network }
    {
        &self.network
    }

    pub fn order(&self) -> &Order
        ensures { result.now ≡ self.now.order }
    {
        &self.order
    }

    // Where entry t of the sheet stands in B, if there is such an entry.
    pub fn place(&self, t: usize) -> Option<Entry>
        ensures { result ≡ place_told (pattern self.now.network) (orders self.now.order) t }
    {
        let entry = self.network.entries().get(t)?;
        self.order.place(*entry)
    }

    // Whether B has an entry at each place, row by row.
    pub fn marks(&self, heap: Global) -> Result<Vec<bool>, Refusal>
        ensures { MatchResult result (λ v. v.items ≡ marks_of (pattern self.now.network) (orders self.now.order)) (λ refusal. refusal ≡ OutOfMemory) }
    {
        let n = usize::from(self.network.size());
        let mut marks = vec![in heap; false; n * n]?;
        for entry in self.network.entries() {
            if let Some(place) = self.order.place(*entry) {
                mark(&mut marks, n, place);
            }
        }
        Ok(marks)
    }
}
