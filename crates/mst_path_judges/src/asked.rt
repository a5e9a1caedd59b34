use mst_ids::Name;

/// What is asked of the paths of VIDs.
#[derive(Clone, Copy)]
pub(crate) enum Asked<'a> {
    /// Which two of these bridges have a path of the most hops, where these are more than so many.
    Hops { most: u64, bridges: &'a [Name] },
    /// Which bridges the path from the one to the other meets, where the third is none of them.
    Via { from: Name, to: Name, by: Name },
}
