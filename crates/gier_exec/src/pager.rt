// What the words of an object are read through. How a word is found is said elsewhere.

use gier_best::Trace;
use gier_order::Recent;
use gier_places::Places;

/// The drum, the places that hold its tracks, and both counts of references, borrowed for one order.
#[derive(Drop)]
pub(crate) struct Pager<'a, D> {
    pub(crate) drum: &'a mut D,
    pub(crate) places: &'a mut Places,
    pub(crate) recent: &'a mut Recent,
    pub(crate) trace: &'a mut Trace,
}
