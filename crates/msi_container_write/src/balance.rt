//! The balanced tree over the entries of a directory: each range of entries hangs from its middle.

ghost use Rattle.std.specs.Prelude.{◌≡◌, ◌+◌, ◌<◌, ◌≤◌};
ghost use Rattle.msi_container_write.specs.Balance as spec;
ghost use Rattle.msi_container_format.specs.Format.{NO_ENTRY};

use msi_container_format::format;

/// Returns the root of the subtree of the `count` entries from `lo` on.
pub(crate) fn middle(lo: u32, count: u32) -> u32
    requires { lo + count < NO_ENTRY }
    ensures { result ≡ spec.middle lo count }
{
    if count == 0 {
        format::NO_ENTRY
    } else {
        lo + (count - 1) / 2
    }
}

/// Returns the left and the right link of entry `k` of `n`.
pub(crate) fn links(n: u32, k: u32) -> (u32, u32)
    requires few { n + 1 < NO_ENTRY }
    requires first { 1 ≤ k }
    requires last { k ≤ n }
    ensures left { result.0 ≡ spec.left_link n 1 n k }
    ensures right { result.1 ≡ spec.right_link n 1 n k }
{
    let mut lo = 1;
    let mut count = n;
    loop {
        let before = (count - 1) / 2;
        let after = count - 1 - before;
        if k < lo + before {
            count = before;
        } else if k == lo + before {
            return (middle(lo, before), middle(lo + before + 1, after));
        } else {
            lo = lo + before + 1;
            count = after;
        }
    }
}
