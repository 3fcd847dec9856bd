// Who may: the upper causes of refusal, which most calls share.
ghost use Rattle.std.specs.Prelude.{◌≡◌, ok_or};
ghost use Rattle.protocol.specs.declared.faults.Fault.TheVariants.{NotLive};
ghost use Rattle.model.specs.Lines.{transaction_of, admit as admits, admit_at, from_cell};
ghost use Rattle.line.specs.View.{line_view};

use crate::parts::Line;
use cells::FourCells;
use coordinator::{Allowed, Transaction};
use protocol::{CellFault, Fault, Site};

// A refusal that arose at a cell, with its site.
pub(super) fn at_cell<T>(site: Site, told: Result<T, CellFault>) -> Result<T, Fault>
    ensures { result ≡ from_cell site told }
{
    told.map_err(|fault| Fault::AtCell(site, fault))
}

impl<C: FourCells> Line<C> {
    // The transaction, if it is live.
    pub(super) fn live(&self, tx: u64) -> Result<Transaction, Fault>
        ensures { result ≡ ok_or (transaction_of (line_view C.view self.now) tx) (NotLive tx) }
    {
        self.transactions.find(tx).ok_or(Fault::NotLive(tx))
    }

    // The transaction, if it is live and at a stage that the call allows.
    pub(super) fn admit(&self, tx: u64, allowed: Allowed) -> Result<Transaction, Fault>
        ensures { result ≡ admits (line_view C.view self.now) tx allowed }
    {
        let transaction = self.live(tx)?;
        if !allowed.allows(transaction.stage) {
            return Err(Fault::WrongStage(tx));
        }
        Ok(transaction)
    }

    // The cell's site, if there is one and the transaction may use it.
    pub(super) fn admit_at(&self, tx: u64, cell: usize, allowed: Allowed) -> Result<Site, Fault>
        ensures { result ≡ admit_at (line_view C.view self.now) tx cell allowed }
    {
        let transaction = self.live(tx)?;
        let site = Site::try_from(cell)?;
        if !allowed.allows(transaction.stage) {
            return Err(Fault::WrongStage(tx));
        }
        Ok(site)
    }
}
