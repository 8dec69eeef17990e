//! Laws: what the program does with files that lie in memory, and that the versions of a record run alike.

ghost use Rattle.beacon_node.specs.laws.Memory.{RunsInMemory};
ghost use Rattle.beacon_node.specs.laws.Versions.{VersionsRunAlike};

/// The clauses of `beacon_main`, over a `MemoryShelf` of given files, are of the run of exactly these files' bytes.
pub fn runs_in_memory()
    ensures { RunsInMemory }
{}

/// The same frames give the same lines and the same end in a record of version 1 and of version 2, unless one of them is of kind 5, which version
/// 1 doesn't have.
pub fn versions_run_alike()
    ensures { VersionsRunAlike }
{}
