ghost use Rattle.std.specs.Prelude.{◌≡◌, ◌+◌, ◌≤◌, [], ◌++◌, length, if◌then◌else◌};
ghost use Rattle.std.specs.List.{remove};
ghost use Rattle.protocol.specs.Sites.{how_many};
ghost use Rattle.protocol.specs.Limits.{post_limit};
ghost use Rattle.protocol.specs.declared.messages.Body.TheVariants.{ToCell, ToCoordinator};
ghost use Rattle.table.specs.Contents.{nth_in, pushed};
ghost use Rattle.model.specs.Lines.{letter, orders_to};
ghost use Rattle.post.specs.View.{waiting, fits_in, missing_for, room_for, sent_if};

use crate::parts::{NoRoom, Post};
use protocol::{Body, Message, Order, POST_LIMIT, PerSite, Report, Site, count_marked};
use table::Table;

// The order as a message to the cell. A function of its own, so that what is sent to whom has a clause, and not only a place in a loop's proof.
fn order_to(site: Site, tx: u64, order: Order) -> Message
    ensures { result ≡ letter tx site (ToCell order) }
{
    let body = Body::ToCell(order);
    Message { tx, site, body }
}

impl Post {
    pub fn new() -> Self
        ensures { waiting result ≡ [] }
    {
        Post {
            messages: Table::new(),
        }
    }

    pub fn len(&self) -> usize
        ensures value { result ≡ length (waiting self.now) }
        ensures fits { result ≤ post_limit }
    {
        self.messages.len()
    }

    pub fn nth(&self, place: usize) -> Option<Message>
        ensures { result ≡ nth_in (waiting self.now) place }
    {
        self.messages.nth(place)
    }

    // Takes the message at the place out, if there is one; later ones move down by one.
    pub fn remove(&mut self, place: usize)
        ensures { waiting self.new ≡ remove (waiting self.old) place }
    {
        self.messages.remove(place);
    }

    // Whether there is room for so many more; else how many places are missing.
    pub fn room(&self, count: usize) -> Result<(), NoRoom>
        ensures value { result ≡ room_for (waiting self.now) count }
        ensures bound { length (waiting self.now) ≤ post_limit }
    {
        let free = POST_LIMIT - self.messages.len();
        if count <= free {
            Ok(())
        } else {
            Err(NoRoom {
                missing: count - free,
            })
        }
    }

    // A report of the cell to the coordinator, if there is room.
    pub fn send_report(&mut self, tx: u64, site: Site, report: Report)
        ensures { waiting self.new ≡ pushed post_limit (waiting self.old) (letter tx site (ToCoordinator report)) }
    {
        let _sent = self.messages.push(Message {
            tx,
            site,
            body: Body::ToCoordinator(report),
        });
    }

    fn send_each(&mut self, marks: PerSite<bool>, tx: u64, order: Order)
        requires { length (waiting self.old) + how_many marks ≤ 64 }
        ensures { waiting self.new ≡ waiting self.old ++ orders_to marks tx order }
    {
        for site in Site::ALL {
            if marks.get(site) {
                let _sent = self.messages.push(order_to(site, tx, order));
            }
        }
    }

    // The order to each marked cell, in rising order, if there is room for all; answers how many, or how many places are missing.
    pub fn send_orders(
        &mut self,
        marks: PerSite<bool>,
        tx: u64,
        order: Order,
    ) -> Result<usize, NoRoom>
        ensures value { result ≡ sent_if (fits_in (waiting self.old) (how_many marks)) (how_many marks) (missing_for (waiting self.old) (how_many marks)) }
        ensures after { waiting self.new ≡ (if fits_in (waiting self.old) (how_many marks) then waiting self.old ++ orders_to marks tx order else waiting self.old) }
    {
        let count = count_marked(&marks);
        self.room(count)?;
        self.send_each(marks, tx, order);
        Ok(count)
    }
}
