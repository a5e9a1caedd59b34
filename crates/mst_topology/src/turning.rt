ghost use Rattle.std.specs.Prelude.{◌≡◌};
ghost use Rattle.mst_topology.specs.Repair.{key_of, turned_at};

use mst_vector::Metric;

/// The key of a bridge: the lower of its vector and what is due, or none where they are the same.
pub fn key<M: Metric>(stored: Option<M::Vector>, due: Option<M::Vector>) -> Option<M::Vector>
    ensures { result ≡ key_of M.rules.order stored due }
{
    match (stored, due) {
        (None, due) => due,
        (stored, None) => stored,
        (Some(x), Some(y)) => {
            let order = M::order(x, y);
            if order.is_eq() {
                None
            } else if order.is_gt() {
                Some(y)
            } else {
                Some(x)
            }
        }
    }
}

/// What the turn of a bridge writes, by its vector and its key: the key, if it is lower, and else none.
pub fn turn<M: Metric>(stored: Option<M::Vector>, key: M::Vector) -> Option<M::Vector>
    ensures { result ≡ turned_at M.rules.order stored key }
{
    match stored {
        None => Some(key),
        Some(x) => {
            if M::order(x, key).is_gt() {
                Some(key)
            } else {
                None
            }
        }
    }
}
