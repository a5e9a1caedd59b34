ghost use Rattle.std.specs.Prelude.{◌≡◌, IsTrue, ◌≤◌, ◌^◌};
ghost use Rattle.mst_vector.specs.Rules.{Rules, IsMetric};

use std::cmp::Ordering;

/// The priority vectors of one kind of spanning tree.
pub trait Metric {
    /// What the tree has to know of a bridge.
    type Bridge: Copy;

    /// What the tree has to know of a port.
    type Port: Copy;

    /// A priority vector.
    type Vector: Copy;

    /// What the functions below compute.
    ghost rules: { Rules Self.Bridge Self.Port Self.Vector };

    /// How two vectors compare: the lower one is better.
    fn order(x: Self::Vector, y: Self::Vector) -> Ordering
        ensures { result ≡ rules.order x y };

    /// The bridge priority vector, with which the bridge would be the root.
    fn bridge_vector(bridge: &Self::Bridge) -> Self::Vector
        ensures { result ≡ rules.bridge_vector bridge.now };

    /// The designated priority vector of a port: what a bridge with this root priority vector says there.
    fn designated_vector(
        vector: Self::Vector,
        bridge: &Self::Bridge,
        port: &Self::Port,
    ) -> Self::Vector
        ensures { result ≡ rules.designated_vector vector bridge.now port.now };

    /// The root path priority vector: what the receiver makes of a designated priority vector of the sender
    /// that its port hears. It adds its own port's cost.
    fn root_path_vector(
        message: Self::Vector,
        sender: &Self::Bridge,
        receiver: &Self::Bridge,
        port: &Self::Port,
    ) -> Self::Vector
        requires port { IsTrue (rules.in_range port.now) }
        requires cost { rules.cost message ≤ 2 ^ 62 }
        ensures { result ≡ rules.root_path_vector message sender.now receiver.now port.now };

    /// The laws of a metric.
    ghost lawful: { IsMetric rules };
}
