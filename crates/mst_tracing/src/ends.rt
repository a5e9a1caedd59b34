ghost use Rattle.std.specs.Prelude.{◌≡◌};
ghost use Rattle.mst_tracing.specs.Ends.{is_of_end as is_of_end_in, untraced_of};

use mst_net::{Contents, Network, Refusal};
use mst_path::Trace;
use mst_sweeping::Failure;

/// Whether a failure is that of one of the two bridges of a path.
pub(crate) fn is_of_end(trace: &Trace, failure: &Failure) -> bool
    ensures { result ≡ is_of_end_in trace.now failure.now }
{
    match failure {
        Failure::Lan(_) => false,
        Failure::Bridge(bridge) => trace.from == *bridge || trace.to == *bridge,
    }
}

/// Why there is no path to ask for in a network, if there isn't: [`Refusal::E04`] where it has no bridge of one of the two names. It takes
/// no memory.
pub fn why_untraced(network: &Network, trace: &Trace) -> Option<Refusal>
    ensures { result ≡ untraced_of network.now.net trace.now }
{
    match (network.bridge(&trace.from), network.bridge(&trace.to)) {
        (Some(_), Some(_)) => None,
        (None, _) | (_, None) => Some(Refusal::E04),
    }
}
