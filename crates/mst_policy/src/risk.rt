use crate::expectation::Promise;
use crate::item::NameList;
use mst_ids::Name;

/// What a line of a risk says to fail.
#[derive(Drop)]
pub enum RiskItems {
    /// The LANs that the list has.
    Lans(NameList),
    /// The bridges that the list has.
    Bridges(NameList),
}

/// A line that says of some LANs or bridges that they fail together. Lines of one name are of one risk.
#[derive(Drop)]
pub struct RiskLine {
    /// The name of the risk.
    pub name: Name,
    /// What fails, as far as this line says.
    pub items: RiskItems,
}

/// What a line of a policy says.
#[derive(Drop)]
pub enum Said {
    /// What a network is to promise.
    Promise(Promise),
    /// What fails together: that promises nothing.
    Risk(RiskLine),
}
