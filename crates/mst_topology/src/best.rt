ghost use Rattle.std.specs.Prelude.{◌≡◌};
ghost use Rattle.mst_topology.specs.Best.{lesser_of, lesser_best_of};
ghost use Rattle.mst_topology.specs.Settling.{lower_heard, port_of as port_of_best};

use crate::heard::Heard;
use mst_ids::PortNo;
use mst_vector::Metric;

/// The lower of the best so far and the vector at a place, if there is one.
pub fn lesser<M: Metric>(
    best: Option<(usize, M::Vector)>,
    place: usize,
    vector: Option<M::Vector>,
) -> Option<(usize, M::Vector)>
    ensures { result ≡ lesser_of M.rules.order best place vector }
{
    match (best, vector) {
        (None, None) => None,
        (None, Some(x)) => Some((place, x)),
        (Some(b), None) => Some(b),
        (Some(b), Some(x)) => {
            if M::order(b.1, x).is_gt() {
                Some((place, x))
            } else {
                Some(b)
            }
        }
    }
}

/// The lower of two vectors, if there are any, each with its place.
pub fn lesser_best<M: Metric>(
    former: Option<(usize, M::Vector)>,
    latter: Option<(usize, M::Vector)>,
) -> Option<(usize, M::Vector)>
    ensures { result ≡ lesser_best_of M.rules.order former latter }
{
    match latter {
        None => former,
        Some((place, vector)) => lesser::<M>(former, place, Some(vector)),
    }
}

/// The lower of the best so far, if any, and what a port has, if anything.
pub fn lower<M: Metric>(
    best: Option<Heard<M::Vector>>,
    port: PortNo,
    message: Option<M::Vector>,
) -> Option<Heard<M::Vector>>
    ensures { result ≡ lower_heard M.rules.order best port message }
{
    match (best, message) {
        (best, None) => best,
        (None, Some(message)) => Some(Heard { port, message }),
        (Some(b), Some(message)) => {
            if M::order(b.message, message).is_gt() {
                Some(Heard { port, message })
            } else {
                Some(b)
            }
        }
    }
}

/// The port of the best.
pub fn port_of<V: Copy>(best: Option<Heard<V>>) -> Option<PortNo>
    ensures { result ≡ port_of_best best }
{
    match best {
        None => None,
        Some(heard) => Some(heard.port),
    }
}
