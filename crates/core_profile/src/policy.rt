//! The policies that a profile names.

ghost use Rattle.std.specs.Prelude.{◌≡◌};
ghost use Rattle.core_profile.specs.Policies.{fetch_name, fetch_named, fetch_policies, issue_name, issue_named, issue_policies};

/// By which count fetch picks contexts, the least first.
#[derive(Clone, Copy, Debug, PartialEq, Eq, Hash)]
pub enum FetchPolicy {
    /// None: contexts take turns.
    RoundRobin,
    /// The entries of a context before issue.
    Icount,
    /// The guessed branches and jumps of a context before issue.
    Brcount,
    /// The loads of a context that missed and have not completed.
    Misscount,
    /// How near the front of the issue queue a context's oldest entry is.
    Iqposn,
}

impl FetchPolicy {
    /// The fetch policies.
    pub fn all() -> [FetchPolicy; 5]
        ensures { result ≡ fetch_policies }
    {
        [
            FetchPolicy::RoundRobin,
            FetchPolicy::Icount,
            FetchPolicy::Brcount,
            FetchPolicy::Misscount,
            FetchPolicy::Iqposn,
        ]
    }

    /// The name that a profile's text has.
    pub fn name(self) -> &'static str
        ensures { result.now ≡ fetch_name self }
    {
        match self {
            FetchPolicy::RoundRobin => "RR",
            FetchPolicy::Icount => "ICOUNT",
            FetchPolicy::Brcount => "BRCOUNT",
            FetchPolicy::Misscount => "MISSCOUNT",
            FetchPolicy::Iqposn => "IQPOSN",
        }
    }

    /// The policy of a name, if it is one.
    pub fn from_name(name: &str) -> Option<FetchPolicy>
        ensures { result ≡ fetch_named name.now }
    {
        for policy in FetchPolicy::all() {
            if policy.name() == name {
                return Some(policy);
            }
        }
        None
    }
}

/// In which order ready entries are issued; those that it doesn't tell apart go oldest first.
#[derive(Clone, Copy, Debug, PartialEq, Eq, Hash)]
pub enum IssuePolicy {
    /// By age alone.
    OldestFirst,
    /// Entries behind a guessed entry that hasn't completed go last.
    SpecLast,
    /// Guessed branches and jumps go first.
    BranchFirst,
}

impl IssuePolicy {
    /// The issue policies.
    pub fn all() -> [IssuePolicy; 3]
        ensures { result ≡ issue_policies }
    {
        [
            IssuePolicy::OldestFirst,
            IssuePolicy::SpecLast,
            IssuePolicy::BranchFirst,
        ]
    }

    /// The name that a profile's text has.
    pub fn name(self) -> &'static str
        ensures { result.now ≡ issue_name self }
    {
        match self {
            IssuePolicy::OldestFirst => "OLDEST_FIRST",
            IssuePolicy::SpecLast => "SPEC_LAST",
            IssuePolicy::BranchFirst => "BRANCH_FIRST",
        }
    }

    /// The policy of a name, if it is one.
    pub fn from_name(name: &str) -> Option<IssuePolicy>
        ensures { result ≡ issue_named name.now }
    {
        for policy in IssuePolicy::all() {
            if policy.name() == name {
                return Some(policy);
            }
        }
        None
    }
}
