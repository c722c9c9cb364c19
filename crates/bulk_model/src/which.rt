// The limits, and which of them was passed.
ghost use Rattle.std.specs.Prelude.{◌≡◌};
ghost use Rattle.bulk_model.specs.Limits as limits;

/// Which limit was passed.
#[derive(Clone, Copy, Debug, PartialEq, Eq)]
pub enum Which {
    /// Bytes of one file read from the tree.
    FileBytes,
    /// Options that a port defines.
    Options,
    /// Distinct pairs of kind and target that a node names.
    Depends,
    /// Bytes of `port.vars`, summed over the nodes so far.
    VarsBytes,
    /// Nodes of the tree.
    Nodes,
    /// Needed nodes.
    PlanNodes,
    /// Bytes of the files of needed ports, their distfiles among them, and of the base root.
    JobBytes,
    /// The stated size of one distfile.
    DistBytes,
    /// Package files in the store.
    StoreNames,
    /// Bytes of the package files read.
    StoreBytes,
    /// Generations of a site that another may follow.
    Generations,
}

impl Which {
    /// The most that may be counted (docs/FORMATS.md, "Limits").
    pub fn most(self) -> u64
        ensures { result ≡ limits.most self }
    {
        match self {
            Which::FileBytes => 4_194_304,
            Which::Options => 256,
            Which::Depends => 256,
            Which::VarsBytes => 268_435_456,
            Which::Nodes => 65_535,
            Which::PlanNodes => 6_144,
            Which::JobBytes => 268_435_456,
            Which::DistBytes => 67_108_864,
            Which::StoreNames => 65_535,
            Which::StoreBytes => 2_147_483_648,
            Which::Generations => 999_999_999_999_999_998,
        }
    }
}
