// What hint hands down on its walk over the nodes, each before its children.

/// What a limit hands down to the aggregates right below it.
#[derive(Clone, Copy, PartialEq, Eq, Debug)]
pub struct Handed {
    /// The limit's skip plus its fetch.
    pub hint: u64,
    /// The group number of the aggregate above; none right below the limit.
    pub group: Option<u32>,
}
