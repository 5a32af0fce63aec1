// Judges both sheets and reads them.
ghost use Rattle.std.specs.Prelude.{IfOk};
ghost use Rattle.network.specs.BothSheets.{sheets_checked, SheetsWrong, Told};
ghost use Rattle.refusals.specs.Checks.{Answers};
ghost use Rattle.network.specs.NetworkSheet.{pattern};
ghost use Rattle.network.specs.OrderSheet.{orders};
ghost use Rattle.network.specs.Permuted.{OneToOne};
ghost use Rattle.refusals.specs.Judging.{Judges};

use super::super::networks::NetworkSheet;
use super::super::orders::OrderSheet;
use super::Permuted;
use refusals::Refusal;
use std::alloc::Global;

impl Permuted {
    // Reads a network sheet and its order sheet, or says what is wrong first: with the network sheet, then with the order sheet.
    pub fn read(heap: Global, network: &[u8], order: &[u8]) -> Result<Permuted, Refusal>
        ensures answers { Answers (sheets_checked network.now order.now) (Told network.now order.now) result }
        ensures judges { Judges (SheetsWrong network.now order.now) result }
        ensures one_to_one { IfOk result (λ m. OneToOne (pattern m.network) (orders m.order)) }
    {
        let network_sheet = NetworkSheet::check(network)?;
        let order_sheet = OrderSheet::check(order, network_sheet.size())?;
        let network = network_sheet.read(heap)?;
        let order = order_sheet.read(heap)?;
        Ok(Permuted { network, order })
    }
}
