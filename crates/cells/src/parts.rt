use cell::Cell;
use store::Store;

mod calls;

// Four parameters and no array, since the stores may be of four types.
#[derive(Drop)]
pub struct Cells<
    S: Store,
    T: Store<Payload = S::Payload>,
    U: Store<Payload = S::Payload>,
    V: Store<Payload = S::Payload>,
> {
    cell0: Cell<S>,
    cell1: Cell<T>,
    cell2: Cell<U>,
    cell3: Cell<V>,
}
