ghost use Rattle.std.specs.Prelude.{◌≡◌, None};
ghost use Rattle.mst_explain.specs.Claims.{same_key as is_same_key, is_in, better as better_of, better_among as better_of_those, first_from, rivals_of as rivals};

use mst_ids::PortName;
use mst_vector::Metric;

/// A vector, and the port that it is of: what the port says on its LAN, or what it gives its bridge. A bridge's own
/// vector is of no port.
#[derive(Clone, Copy)]
pub(crate) struct Claim<V: Copy> {
    pub(crate) port: Option<PortName>,
    pub(crate) vector: V,
}

/// Of which ports claims are looked at: all, all but one, or one alone.
#[derive(Clone, Copy)]
pub(crate) enum Among {
    All,
    But(Option<PortName>),
    Only(Option<PortName>),
}

fn same_key(a: &Option<PortName>, b: &Option<PortName>) -> bool
    ensures { result ≡ is_same_key a.now b.now }
{
    match (a, b) {
        (None, None) => true,
        (Some(a), Some(b)) => *a == *b,
        _ => false,
    }
}

impl Among {
    fn has(&self, port: &Option<PortName>) -> bool
        ensures { result ≡ is_in self.now port.now }
    {
        match self {
            Among::All => true,
            Among::But(one) => !same_key(port, one),
            Among::Only(one) => same_key(port, one),
        }
    }
}

/// The better of the first so far, if any, and a claim; the former where they are equal.
fn better<M: Metric>(best: Option<Claim<M::Vector>>, claim: Claim<M::Vector>) -> Claim<M::Vector>
    ensures { result ≡ better_of M.rules.order best claim }
{
    match best {
        None => claim,
        Some(best) => {
            if M::order(best.vector, claim.vector).is_gt() {
                claim
            } else {
                best
            }
        }
    }
}

fn better_among<M: Metric>(
    among: &Among,
    best: Option<Claim<M::Vector>>,
    claim: Claim<M::Vector>,
) -> Option<Claim<M::Vector>>
    ensures { result ≡ better_of_those M.rules.order among.now best claim }
{
    if among.has(&claim.port) {
        Some(better::<M>(best, claim))
    } else {
        best
    }
}

/// The first of the claims of these ports: no other of them has a lower vector.
pub(crate) fn first_among<M: Metric>(
    claims: &[Claim<M::Vector>],
    among: &Among,
) -> Option<Claim<M::Vector>>
    ensures { result ≡ first_from M.rules.order among.now None claims.now }
{
    let mut first: Option<Claim<M::Vector>> = None;
    for claim in claims {
        first = better_among::<M>(among, first, *claim);
    }
    first
}

/// Those against whom the first is told, for a port: that port alone, where it isn't the first, and else all others.
pub(crate) fn rivals_of(first: Option<PortName>, port: Option<PortName>) -> Among
    ensures { result ≡ rivals first port }
{
    if same_key(&first, &port) {
        Among::But(first)
    } else {
        Among::Only(port)
    }
}
