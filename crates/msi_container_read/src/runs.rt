//! Streams that lie in the file in one piece, in sectors that follow one another.

ghost use Rattle.std.specs.Prelude.{◌≡◌, ◌+◌, ◌*◌, ◌≤◌, length, map, IfSome, IsTrue};
ghost use Rattle.std.specs.List.{range_with_len};
ghost use Rattle.msi_container_format.specs.Bytes.{bytes_at};
ghost use Rattle.msi_container_format.specs.Container as container;
ghost use Rattle.msi_container_read.specs.Runs.{IsRun};

use msi_container_tables::sector_size;

fn is_run(sectors: &[u32], first: u32) -> bool
    ensures { IsTrue result → IsRun first sectors.now }
{
    for (i, sector) in sectors.iter().enumerate() {
        if *sector as usize != first as usize + i {
            return false;
        }
    }
    true
}

/// Returns where the first `count` bytes of some sectors begin in the file. It is `None` where one of the sectors isn't
/// behind the one before it, and where the file ends before these bytes do.
pub(crate) fn run_start(bytes: &[u8], sectors: &[u32], count: usize) -> Option<usize>
    requires { count ≤ length sectors.now * container.sector_size bytes.now }
    ensures within { IfSome result (λ start. start + count ≤ length bytes.now) }
    ensures same { IfSome result (λ start. bytes_at bytes.now start count
        ≡ map (container.sector_byte bytes.now sectors.now) (range_with_len 0 count)) }
{
    let first = *sectors.first()?;
    let start = (first as usize + 1) * sector_size(bytes);
    if is_run(sectors, first) && start <= bytes.len() && count <= bytes.len() - start {
        Some(start)
    } else {
        None
    }
}
