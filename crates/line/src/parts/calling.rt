// Calls as data.
ghost use Rattle.std.specs.Prelude.{◌≡◌};
ghost use Rattle.model.specs.Calls.{told, did};
ghost use Rattle.line.specs.View.{line_view};

use crate::parts::Line;
use cells::FourCells;
use protocol::{Answer, Call, Fault};

impl<C: FourCells> Line<C> {
    pub(super) fn call_step(&mut self, call: Call<C::Payload>) -> Result<Answer<C::Payload>, Fault>
        ensures value { result ≡ told (line_view C.view self.old) call }
        ensures after { line_view C.view self.new ≡ did (line_view C.view self.old) call }
    {
        let answer = match call {
            Call::Open => Answer::Number(self.open_step()?),
            Call::Join(tx, cell) => {
                self.join_step(tx, cell)?;
                Answer::Accepted
            }
            Call::Read(tx, cell, item) => Answer::Payload(self.read_step(tx, cell, item)?),
            Call::Write(tx, cell, item, payload) => {
                self.write_step(tx, cell, item, payload)?;
                Answer::Accepted
            }
            Call::Leave(tx, cell) => {
                self.leave_step(tx, cell)?;
                Answer::Accepted
            }
            Call::Submit(tx) => Answer::Number(self.submit_step(tx)? as u64),
            Call::GiveUp(tx) => {
                self.give_up_step(tx)?;
                Answer::Accepted
            }
            Call::Resend(tx) => Answer::Number(self.resend_step(tx)? as u64),
            Call::Deliver(place) => Answer::Delivered(self.deliver_step(place)?),
            Call::Lose(place) => {
                self.lose_step(place)?;
                Answer::Accepted
            }
            Call::Clock(cell, time) => {
                self.clock_step(cell, time)?;
                Answer::Accepted
            }
            Call::Fate(tx) => Answer::Stands(self.fate_step(tx)?),
        };
        Ok(answer)
    }
}
