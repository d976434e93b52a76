// What the calls of a use are made on.
use super::slips::Slips;
use store::Store;

// A store, the slips that were given, and a work page.
#[derive(Drop)]
pub(super) struct Desk<'a, M> {
    pub(super) store: &'a mut Store<M>,
    pub(super) slips: &'a mut Slips,
    pub(super) work: &'a mut [u8],
}
