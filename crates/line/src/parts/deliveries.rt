// Deliveries: a message acts on its receiver.
ghost use Rattle.std.specs.Prelude.{◌≡◌, Some};
ghost use Rattle.protocol.specs.declared.calls.Call.TheVariants.{Deliver};
ghost use Rattle.model.specs.Calls.{delivered, told, did};
ghost use Rattle.model.specs.Lines.{transaction_of, order_told, order_done, report_told, report_done, order_delivery, concluded, shut as shut_in};
ghost use Rattle.line.specs.View.{line_view};

use crate::parts::Line;
use cells::FourCells;
use coordinator::{Event, Transaction};
use protocol::{Body, Decision, Delivery, Fault, Order, PerSite, Report, Site, Vote};
use table::Machine;

// What the delivery of an order answers, by the report that it brings.
fn order_answer(report: Option<Report>) -> Delivery
    ensures { result ≡ order_delivery report }
{
    match report {
        None => Delivery::Stale,
        Some(Report::Cast(Vote::Yes(range))) => Delivery::Ranged(range),
        Some(Report::Cast(Vote::No)) => Delivery::Declined,
        Some(Report::Ack) => Delivery::Settled,
    }
}

impl<C: FourCells> Line<C> {
    // The transaction closes.
    pub(super) fn shut(&mut self, tx: u64)
        ensures { line_view C.view self.new ≡ shut_in (line_view C.view self.old) tx }
    {
        self.cells.close(tx);
        self.transactions.forget(tx);
    }

    // The cell acts on the order, and its report goes to the post.
    fn deliver_order(&mut self, tx: u64, site: Site, order: Order) -> Result<Delivery, Fault>
        ensures value { result ≡ order_told (line_view C.view self.old) tx site order }
        ensures after { line_view C.view self.new ≡ order_done (line_view C.view self.old) tx site order }
    {
        let reports = usize::from(self.cells.replies(site, tx, order));
        self.post.room(reports)?;
        let report = self.cells.receive(site, tx, order);
        if let Some(sent) = report {
            self.post.send_report(tx, site, sent);
        }
        Ok(order_answer(report))
    }

    // Sends what the coordinator's answer announces, and closes the transaction with the last acknowledgement.
    fn conclude(&mut self, tx: u64, joined: PerSite<bool>, answer: Delivery)
        ensures { line_view C.view self.new ≡ concluded (line_view C.view self.old) tx joined answer }
    {
        let decision = match answer {
            Delivery::Committed(time) => Decision::Commit(time),
            Delivery::Aborted => Decision::Abort,
            Delivery::Closed => return self.shut(tx),
            _ => return,
        };
        // Whoever delivered the report saw that there is room.
        let _ = self.post.send_orders(joined, tx, Order::Decide(decision));
    }

    // The coordinator acts on the report.
    fn deliver_report(
        &mut self,
        tx: u64,
        transaction: Transaction,
        site: Site,
        report: Report,
    ) -> Result<Delivery, Fault>
        requires { transaction_of (line_view C.view self.old) tx ≡ Some transaction }
        ensures value { result ≡ report_told (line_view C.view self.old) transaction site report }
        ensures after { line_view C.view self.new ≡ report_done (line_view C.view self.old) tx transaction site report }
    {
        self.post.room(transaction.sends(site, report))?;
        let Some(answer) = self.transactions.step(tx, Event::Receive(site, report)) else {
            return Ok(Delivery::Stale);
        };
        self.conclude(tx, transaction.joined, answer);
        Ok(answer)
    }

    pub(super) fn deliver_step(&mut self, place: usize) -> Result<Delivery, Fault>
        ensures value { delivered result ≡ told (line_view C.view self.old) (Deliver place) }
        ensures after { line_view C.view self.new ≡ did (line_view C.view self.old) (Deliver place) }
    {
        let message = self.post.nth(place).ok_or(Fault::NoMessage(place))?;
        let Some(transaction) = self.transactions.find(message.tx) else {
            return Ok(Delivery::Stale);
        };
        match message.body {
            Body::ToCell(order) => self.deliver_order(message.tx, message.site, order),
            Body::ToCoordinator(report) => self.deliver_report(
                message.tx,
                transaction,
                message.site,
                report,
            ),
        }
    }
}
