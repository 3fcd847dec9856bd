// Serial order, and other laws, over every list of calls of a line.
#![tactic(auto)]

ghost use Rattle.serial.specs.Runs.{AlwaysSerial};
ghost use Rattle.serial.specs.Laws.{AlwaysOrdered, AlwaysBounded, AlwaysVoted, RefusalsKeep};

// What was committed is as if each transaction had run alone, in the order of the commit times.
pub fn always_serial<P>()
    ensures { AlwaysSerial P }
{}

// There is such an order.
pub fn always_ordered<P>()
    ensures { AlwaysOrdered P }
{}

// No more transactions are live, and no more messages wait, than the limits allow.
pub fn always_bounded<P>()
    ensures { AlwaysBounded P }
{}

// A commit time lies in the vote of each cell that the transaction joined.
pub fn always_voted<P>()
    ensures { AlwaysVoted P }
{}

// A refused call changes nothing.
pub fn refusals_keep<P>()
    ensures { RefusalsKeep P }
{}
